// The bytes of a list, put line by line.
ghost use Rattle.std.specs.Prelude.{◌<◌, ◌^◌};

use crate::refused::{say_long, say_refusal};
use crate::state::ListState;
use codepage::TableSet;
use tillbox_layout::front_len;
use tillbox_storage::files::OpenFile;
use tillbox_storage::messages::Reported;

// The longest line whose spelling is put into the small buffer.
const SHORT: usize = 512;

// The room for the spelling of a short line, which has at most twice as many bytes, and for that of any line; each with one place more for
// the line feed.
const SHORT_ROOM: usize = 1025;

const LONG_ROOM: usize = 65537;

// A line that is not spelled, closed as it is.
fn put_as_is(
    state: &mut ListState,
    line: &[u8],
    feed: &[u8],
    target: &OpenFile,
) -> Result<(), Reported> {
    state.put(line, target)?;
    state.put(feed, target)?;
    state.add_refused();
    state.close();
    Ok(())
}

// A spelling of `size` bytes at the front of its buffer, and the line's feed behind it.
fn put_spelling(
    state: &mut ListState,
    spelled: &mut [u8],
    count: usize,
    feed: &[u8],
    target: &OpenFile,
) -> Result<(), Reported> {
    let size = front_len(count, spelled);
    if spelled.len() - size < feed.len() {
        state.put(&spelled[..size], target)?;
        return state.put(feed, target);
    }
    let end = size + feed.len();
    spelled[size..end].copy_from_slice(feed);
    state.put(&spelled[..end], target)
}

// A whole line, spelled into a buffer of so many bytes, which has room for its spelling and a line feed, and written. The buffer stands on
// the stack, since two parts of one lent memory can not be lent at the same time.
fn put_line<const ROOM: usize>(
    state: &mut ListState,
    tables: &TableSet,
    line: &[u8],
    feed: &[u8],
    target: &OpenFile,
) -> Result<(), Reported>
    requires { ROOM < 2 ^ 63 }
{
    let mut spelled = [0u8; ROOM];
    match spelling::standard_spelling(tables, line, &mut spelled) {
        Err(why) => {
            say_refusal(state.number(), why, tables.classes, line);
            put_as_is(state, line, feed, target)
        }
        Ok(count) => {
            let size = front_len(count, &spelled);
            if line != &spelled[..size] {
                state.add_changed();
            }
            put_spelling(state, &mut spelled, count, feed, target)?;
            state.close();
            Ok(())
        }
    }
}

// The end of the line at hand: `feed` is its line feed, or empty at the list's end.
fn end_line(
    state: &mut ListState,
    tables: &TableSet,
    line: &[u8],
    feed: &[u8],
    target: &OpenFile,
) -> Result<(), Reported> {
    if state.over {
        say_long(state.number());
        return put_as_is(state, b"", feed, target);
    }
    let length = front_len(state.length, line);
    if length <= SHORT {
        return put_line::<SHORT_ROOM>(state, tables, &line[..length], feed, target);
    }
    put_line::<LONG_ROOM>(state, tables, &line[..length], feed, target)
}

// The bytes of a block: the lines that end in it are written, the last one is begun.
pub fn put_bytes(
    state: &mut ListState,
    tables: &TableSet,
    block: &[u8],
    line: &mut [u8],
    target: &OpenFile,
) -> Result<(), Reported> {
    for part in block.split_inclusive(|byte| *byte == b'\n') {
        let Some(rest) = part.strip_suffix(b"\n") else {
            return state.append(part, line, target);
        };
        state.append(rest, line, target)?;
        end_line(state, tables, line, b"\n", target)?;
    }
    Ok(())
}

// The list's end: a line that is begun has no line feed.
pub fn end_list(
    state: &mut ListState,
    tables: &TableSet,
    line: &[u8],
    target: &OpenFile,
) -> Result<(), Reported> {
    if state.is_begun() {
        return end_line(state, tables, line, b"", target);
    }
    Ok(())
}
