// A listing read line by line into lent tables, and its table image put in the place of a file.
ghost use Rattle.std.specs.Prelude.{◌≡◌, ◌+◌, ◌≤◌, ◌<◌, IfSome, eqb, min, length, position, unwrap_or};

use crate::messages::{say_end, say_refusal};
use crate::saving;
use crate::state::ReadState;
use codepage::{TableRoom, TableSet};
use tillbox_jobs::job::Ending;
use tillbox_layout::front_len;
use tillbox_storage::files;
use tillbox_storage::files::OpenFile;
use tillbox_storage::messages::{Reported, say, say_number};

// Reads the line at hand, as far as it is kept: the longest record has 12 bytes, so that one which is cut is refused. A refusal is said.
fn take_line(
    state: &mut ReadState,
    room: &mut TableRoom,
    input: &[u8],
    table: &[u8],
) -> Result<(), Reported> {
    let read = listing::read_line(
        state.progress,
        state.line(),
        room.classes,
        room.singles,
        room.pairs,
        room.index,
        room.blocks,
    );
    match read {
        Ok(progress) => {
            state.accept(progress);
            Ok(())
        }
        Err(why) => Err(say_refusal(why, state, room.classes, input, table)),
    }
}

// Where the first line feed stands.
fn first_line_feed(block: &[u8]) -> Option<usize>
    ensures value { result ≡ position (λ byte. eqb byte 10) block.now }
    ensures upper_bound { IfSome result (λ feed. feed < length block.now) }
{
    block.iter().position(|byte| *byte == b'\n')
}

// How many bytes the first line of a block has, its line feed with it, or all of them where it has none.
fn line_len(block: &[u8]) -> usize
    ensures value { result ≡ min (unwrap_or (position (λ byte. eqb byte 10) block.now) (length block.now) + 1) (length block.now) }
    ensures upper_bound { result ≤ length block.now }
    ensures lower_bound { 0 < length block.now → 0 < result }
{
    match first_line_feed(block) {
        Some(feed) => feed + 1,
        None => block.len(),
    }
}

// The bytes of a block: the lines that end in it are read, the last one is begun.
fn take_bytes(
    state: &mut ReadState,
    block: &[u8],
    room: &mut TableRoom,
    input: &[u8],
    table: &[u8],
) -> Result<(), Reported> {
    let mut rest = block;
    // Kept: `split_inclusive` would leave the edit `line_feed_left` nothing to apply to.
    while !rest.is_empty() {
        let (line, next) = rest.split_at(line_len(rest));
        state.append(line);
        if line.ends_with(b"\n") {
            take_line(state, room, input, table)?;
        }
        rest = next;
    }
    Ok(())
}

// The next block of the listing.
fn next_block(
    state: &mut ReadState,
    source: &OpenFile,
    size: usize,
    room: &mut TableRoom,
    table: &[u8],
) -> Result<(), Reported> {
    let mut block = [0u8; 512];
    let size = front_len(size, &block);
    source.read_block(&mut block[..size])?;
    state.add_read(size);
    take_bytes(state, &block[..size], room, source.path, table)
}

// All lines of a listing of `total` bytes, up to one that is refused. A last line that has no line feed is read without it.
fn take_lines(
    source: &OpenFile,
    total: u64,
    room: &mut TableRoom,
    table: &[u8],
) -> Result<ReadState, Reported> {
    let mut state = ReadState::first();
    for _ in 0..tillbox_layout::block_count(0, total, false) {
        let size = tillbox_layout::block_len(tillbox_layout::BLOCK, state.read, total);
        next_block(&mut state, source, size, room, table)?;
    }
    if !state.line().is_empty() {
        take_line(&mut state, room, source.path, table)?;
    }
    Ok(state)
}

// The summary of a listing that was accepted.
fn summary(state: &ReadState, page: u16) {
    say(b"tillbox: read ");
    say_number(state.read);
    say(b" bytes, lines: ");
    say_number(state.lines);
    say(b", page ");
    say_number(page as u64);
    say(b"\n");
}

// From the last line on: the end is asked for, and each table cut to the size needed.
fn with_lines(
    rt: &HostRuntime,
    state: &ReadState,
    room: &TableRoom,
    input: &[u8],
    table: &[u8],
) -> Result<Ending, Reported> {
    match listing::end(state.progress) {
        Err(why) => Err(say_end(why, state.lines, input, table)),
        Ok((numbers, sizes)) => {
            saving::replace(rt, &room.table_set(numbers, sizes), table)?;
            summary(state, numbers.page);
            Ok(Ending::Done)
        }
    }
}

// Reads a listing into lent tables and replaces the file `table` by their image, once the whole listing was accepted.
pub fn read_listing(
    rt: &HostRuntime,
    input: &[u8],
    table: &[u8],
    room: &mut TableRoom,
) -> Result<Ending, Reported> {
    let source = files::open_input(rt, input)?;
    let total = source.size()?;
    source.seek(0)?;
    let state = take_lines(&source, total, room, table)?;
    with_lines(rt, &state, room, input, table)
}
