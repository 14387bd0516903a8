// Inner: why a flag is up: every code without a character of a journal, told on standard output, one a line. (CR 7, `tillbox why`.) The
// journal is read in parts of at most 65,536 bytes that begin where a code begins, and end behind a line where they can. Which codes
// have no character is decided by `findings::next_finding`.

#![tactic(auto)]

mod context;
pub mod job;
mod line;
mod parts;
mod state;
mod telling;

use crate::state::Telling;
use codepage::TableSet;
use convert::Policy;
use tillbox_layout::front_len;
use tillbox_storage::files::OpenFile;
use tillbox_storage::messages::Reported;

// What is asked for: the findings under a policy, and whether the line of the journal around each is told too.
#[derive(Clone, Copy)]
pub struct Asked {
    pub policy: Policy,
    pub context: bool,
}

// The next part of the journal, read and told: it ends where a code begins.
fn tell_next_part(
    rt: &HostRuntime,
    state: &mut Telling,
    asked: Asked,
    tables: &TableSet,
    source: &OpenFile,
    total: u64,
    room: &mut [u8],
) -> Result<(), Reported> {
    let size = front_len(parts::part_len(state.start, total), room);
    source.seek(tillbox_layout::place_of(false, state.start))?;
    source.read_block(&mut room[..size])?;
    let complete = parts::is_complete(state.start, size, total);
    let read = &room[..size];
    let end = parts::part_end(tables.classes, read, complete);
    telling::tell_part(rt, state, asked, tables, &read[..end])
}

// All parts of a journal of `total` bytes. `room` is for the bytes of one part. Each part has a byte at least.
fn tell_journal(
    rt: &HostRuntime,
    asked: Asked,
    tables: &TableSet,
    source: &OpenFile,
    total: u64,
    room: &mut [u8],
) -> Result<Telling, Reported> {
    let mut state = Telling::default();
    for _ in 0..total {
        if state.is_over(total) {
            break;
        }
        tell_next_part(rt, &mut state, asked, tables, source, total, room)?;
    }
    Ok(state)
}
