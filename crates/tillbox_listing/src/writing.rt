// A table set written as a listing, line by line, into a file that is made anew.
use codepage::TableSet;
use lister::{Cursor, Line};
use tillbox_jobs::job::{Ending, closed};
use tillbox_jobs::names::Names;
use tillbox_jobs::tables;
use tillbox_layout::front_len;
use tillbox_storage::files::OpenFile;
use tillbox_storage::messages::{Reported, say, say_number};
use tillbox_storage::{files, messages};

// The longest line.
const LONGEST: usize = 12;

// More lines than a listing can have: 2 numbers, 256 bytes as `S` or `L`, 256 as `T`, 256 pairs for each of 128 leads, 65,535 units.
const MOST_LINES: u64 = 100000;

// Where the next line is looked for; the bytes that wait in the buffer; the lines and the bytes written so far.
#[derive(Clone, Copy)]
struct WriteState {
    cursor: Cursor,
    length: usize,
    lines: u64,
    written: u64,
}

impl WriteState {
    // Before the first line.
    fn first() -> WriteState {
        WriteState {
            cursor: Cursor::new(),
            length: 0,
            lines: 0,
            written: 0,
        }
    }

    // A line more waits in the buffer.
    fn add_line(&mut self, line: Line) {
        self.cursor = line.next;
        self.length = self.length.saturating_add(line.length);
        self.lines = self.lines.saturating_add(1);
    }

    // Writes what waits in the buffer.
    fn flush(&mut self, room: &[u8], target: &OpenFile) -> Result<(), Reported> {
        let length = front_len(self.length, room);
        target.write(&room[..length])?;
        self.length = 0;
        self.written = self.written.saturating_add(length as u64);
        Ok(())
    }

    // Writes what waits where the longest line would not fit behind it.
    fn make_room(&mut self, room: &[u8], target: &OpenFile) -> Result<(), Reported> {
        if room.len() - front_len(self.length, room) < LONGEST {
            return self.flush(room, target);
        }
        Ok(())
    }
}

// All lines. `room` is a buffer for some of them.
fn put_lines(
    tables: &TableSet,
    room: &mut [u8],
    target: &OpenFile,
    table: &[u8],
) -> Result<WriteState, Reported> {
    let mut state = WriteState::first();
    for _ in 0..MOST_LINES {
        state.make_room(room, target)?;
        let at = front_len(state.length, room);
        match lister::write_line(tables, state.cursor, &mut room[at..]) {
            Ok(Some(line)) => state.add_line(line),
            Ok(None) => {
                state.flush(room, target)?;
                return Ok(state);
            }
            Err(why) => return Err(messages::refuse(why.number(), table)),
        }
    }
    Err(messages::wrong(target.path, b"it has more lines than a listing can have"))
}

// The summary of a listing.
fn summary(state: WriteState, page: u16) {
    say(b"tillbox: page ");
    say_number(page as u64);
    say(b", lines: ");
    say_number(state.lines);
    say(b", written ");
    say_number(state.written);
    say(b" bytes\n");
}

// From an open listing on.
fn with_target(
    tables: &TableSet,
    room: &mut [u8],
    target: &OpenFile,
    table: &[u8],
) -> Result<Ending, Reported> {
    summary(put_lines(tables, room, target, table)?, tables.numbers.page);
    Ok(Ending::Done)
}

// Writes the listing of a table set into the file that is named second. `room` is a buffer of at least one line.
pub fn with_tables(
    rt: &HostRuntime,
    tables: &TableSet,
    room: &mut [u8],
    names: Names,
) -> Result<Ending, Reported> {
    tables::good_shape(names.table, tables)?;
    let target = files::make(rt, names.input)?;
    closed(with_target(tables, room, &target, names.table), target)
}
