// A job: the findings of a journal, told one a line, and their summary.
use crate::Asked;
use crate::state::Telling;
use codepage::TableSet;
use convert::Direction;
use tillbox_jobs::job::Ending;
use tillbox_jobs::names::Names;
use tillbox_jobs::resume::start;
use tillbox_jobs::{report, tables};
use tillbox_storage::files;
use tillbox_storage::messages::{Reported, say, say_number};

// A flag, where there is something that sets it.
fn flag(count: u64, value: u8) -> u8 {
    if count == 0 { 0 } else { value }
}

// The flags of the reading, as a run has them.
fn flags_of(state: Telling) -> u8 {
    let kinds = state.kinds;
    let stopped = if state.stopped { 8 } else { 0 };
    flag(kinds.single, 1) | flag(kinds.pair, 2) | flag(kinds.invalid, 4) | stopped
}

// The summary: what was read, the flags of it, and how many codes of each kind set them.
fn summary(state: Telling) {
    say(b"tillbox: read ");
    say_number(state.read());
    say(b" bytes, found ");
    say_number(state.kinds.all());
    say(b" codes without a character\n");
    report::say_flags(flags_of(state));
    report::say_by_kind(b"by kind", state.kinds);
}

// Tells why a flag is up, with a table set. `room` is for one part of the journal, 65,536 bytes. The findings go to standard output, all else
// to standard error.
pub fn with_tables(
    rt: &HostRuntime,
    asked: Asked,
    tables: &TableSet,
    room: &mut [u8],
    names: Names,
) -> Result<Ending, Reported> {
    tables::good_shape(names.table, tables)?;
    start(Direction::Decoding, tables.numbers.page, asked.policy)?;
    let source = files::open_input(rt, names.input)?;
    let total = source.size()?;
    let state = crate::tell_journal(rt, asked, tables, &source, total, room)?;
    summary(state);
    if state.stopped {
        return Ok(Ending::Stopped);
    }
    Ok(Ending::Done)
}
