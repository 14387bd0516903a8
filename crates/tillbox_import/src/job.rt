// An import: a journal's records in a file that is made anew.
use crate::blocks::Imported;
use crate::records::Records;
use crate::{blocks, report};
use codepage::TableSet;
use convert::{Direction, Policy, Refusal, Run};
use tillbox_jobs::job::{Ending, closed};
use tillbox_jobs::names::Names;
use tillbox_jobs::resume::start;
use tillbox_jobs::stops::is_stopped;
use tillbox_jobs::tables;
use tillbox_storage::files::OpenFile;
use tillbox_storage::messages::Reported;
use tillbox_storage::{files, messages};

// The end of an import whose journal has a field that is too long, at a byte: whole records stay.
fn too_long(imported: Imported, place: u64, records: &mut Records, input: &[u8]) -> Reported {
    if records.cut().is_ok() {
        report::too_long(place, records.progress, input);
        report::summary(imported.turn, records.progress);
    }
    Reported
}

// The end of an import that was stopped by its policy: whole records stay.
fn stopped(imported: Imported, records: &mut Records) -> Result<Ending, Reported> {
    records.cut()?;
    report::summary(imported.turn, records.progress);
    report::stopped(imported.turn, records.progress);
    Ok(Ending::Stopped)
}

// The end of an import.
fn finished(imported: Imported, records: &mut Records, input: &[u8]) -> Result<Ending, Reported> {
    if let Some(place) = imported.too_long {
        return Err(too_long(imported, place, records, input));
    }
    if is_stopped(imported.turn.run) {
        return stopped(imported, records);
    }
    records.finish()?;
    report::summary(imported.turn, records.progress);
    Ok(Ending::Done)
}

// From an open records file on.
fn with_target(
    run: Run,
    tables: &TableSet,
    source: &OpenFile,
    target: &OpenFile,
    total: u64,
) -> Result<Ending, Reported> {
    let mut records = Records::begin(target);
    let imported = blocks::all_blocks(run, tables, &mut records, source, total)?;
    finished(imported, &mut records, source.path)
}

// From an open journal on.
fn with_input(
    rt: &HostRuntime,
    policy: Policy,
    tables: &TableSet,
    source: &OpenFile,
    output: &[u8],
) -> Result<Ending, Reported> {
    let total = source.size()?;
    if Run::READ_LIMIT < total {
        return Err(messages::refuse(Refusal::ReadLimit.number(), source.path));
    }
    let run = start(Direction::Decoding, tables.numbers.page, policy)?;
    source.seek(0)?;
    let target = files::make(rt, output)?;
    closed(with_target(run, tables, source, &target, total), target)
}

// Imports a journal with a table set. What happened is said on standard error.
pub fn with_tables(
    rt: &HostRuntime,
    policy: Policy,
    tables: &TableSet,
    names: Names,
) -> Result<Ending, Reported> {
    tables::good_shape(names.table, tables)?;
    let source = files::open_input(rt, names.input)?;
    with_input(rt, policy, tables, &source, names.output)
}
