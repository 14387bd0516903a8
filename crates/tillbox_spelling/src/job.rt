// A job: the list of a file spelled into a file that is made anew.
use crate::state::ListState;
use codepage::TableSet;
use tillbox_jobs::job::{Ending, closed};
use tillbox_jobs::names::Names;
use tillbox_jobs::tables;
use tillbox_storage::files::OpenFile;
use tillbox_storage::messages::{Reported, say, say_number};
use tillbox_storage::{files, messages};

// A number of the summary.
fn say_count(what: &[u8], number: u64) {
    say(b"tillbox: ");
    say(what);
    say_number(number);
    say(b"\n");
}

// The summary of a list.
fn summary(state: ListState) {
    say(b"tillbox: read ");
    say_number(state.read);
    say(b" bytes, written ");
    say_number(state.written);
    say(b" bytes\n");
    say_count(b"lines: ", state.lines);
    say_count(b"lines changed: ", state.changed);
    say_count(b"lines refused: ", state.refused);
}

// From an open output on.
fn with_target(
    tables: &TableSet,
    line: &mut [u8],
    source: &OpenFile,
    target: &OpenFile,
    total: u64,
) -> Result<Ending, Reported> {
    summary(crate::spell_list(tables, source, target, total, line)?);
    Ok(Ending::Done)
}

// From an open list on.
fn with_input(
    rt: &HostRuntime,
    tables: &TableSet,
    line: &mut [u8],
    source: &OpenFile,
    output: &[u8],
) -> Result<Ending, Reported> {
    let total = source.size()?;
    source.seek(0)?;
    let target = files::make(rt, output)?;
    closed(with_target(tables, line, source, &target, total), target)
}

// Looks whether the line feed is a character wherever it stands: the lines of a list can be told apart. Where it is not, that was said.
fn has_lines(classes: &[u8], table: &[u8]) -> Result<(), Reported> {
    if classes
        .get(0x0A)
        .is_some_and(|class| codepage::is_trail_class(*class))
    {
        return Err(messages::wrong(
            table,
            b"the line feed (0A) may be a second byte in it, so that the lines of a list can not be told apart",
        ));
    }
    Ok(())
}

// Spells a list with a table set. `line` is room for one line, 65,536 bytes. What happened is said on standard error.
pub fn with_tables(
    rt: &HostRuntime,
    tables: &TableSet,
    line: &mut [u8],
    names: Names,
) -> Result<Ending, Reported> {
    tables::good_shape(names.table, tables)?;
    has_lines(tables.classes, names.table)?;
    let source = files::open_input(rt, names.input)?;
    with_input(rt, tables, line, &source, names.output)
}
