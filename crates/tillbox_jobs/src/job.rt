// A job: an input file converted into an output file, whole or from a checkpoint on.
use crate::blocks::Turn;
use crate::names::Names;
use crate::resume::Origin;
use crate::{blocks, report, resume, stops, tables};
use codepage::TableSet;
use convert::{Direction, Policy, Refusal, Run};
use tillbox_checks::tails;
use tillbox_storage::files::OpenFile;
use tillbox_storage::messages::Reported;
use tillbox_storage::{checkpoints, files, messages};

// What is to be done.
#[derive(Clone, Copy)]
pub struct Job {
    pub direction: Direction,
    // The policy that was asked for; a fresh run has the standard one where none was.
    pub policy: Option<Policy>,
    // Whether the input is complete, so that its end is the text's end.
    pub last: bool,
    pub output: Output,
}

// What is made of an input.
#[derive(Clone, Copy)]
pub enum Output {
    // A ledger, or a receipt.
    Text,
    // A receipt whose replaced characters are counted: an encoding under 555 alone.
    Preview,
    // The same, and the lines of the ledger are broken into printed lines of at most so many bytes.
    Printed(u64),
}

// How a job ended whose reason to fail was not said.
#[derive(Clone, Copy)]
pub enum Ending {
    // All is read.
    Done,
    // The run stopped by its policy.
    Stopped,
}

// Sums up a run: all is read, or it was stopped.
fn told(turn: Turn, checkpoint: Option<&[u8]>) -> Ending {
    report::summary(turn.run, turn.stop, turn.kinds, checkpoint);
    if stops::is_stopped(turn.run) {
        return Ending::Stopped;
    }
    Ending::Done
}

// The end of a job whose parts are done: the last line is saved and the run summed up.
fn finished(
    rt: &HostRuntime,
    job: Job,
    turn: Turn,
    target: &OpenFile,
    checkpoint: Option<&[u8]>,
) -> Result<Ending, Reported> {
    if let Some(path) = checkpoint {
        checkpoints::save(rt, turn.run, target, path)?;
        files::sync_folder(rt, path);
    }
    if let Output::Text = job.output {
        return Ok(told(turn, checkpoint));
    }
    report::preview(turn.run, turn.kinds);
    Ok(Ending::Done)
}

// Whether the units that a run reads have two bytes; those that it writes have the other size.
fn reads_wide(direction: Direction) -> bool {
    match direction {
        Direction::Decoding => false,
        Direction::Encoding => true,
    }
}

// The output of a run that goes on, taken up where the run stands.
fn take_up<'a>(rt: &HostRuntime, run: Run, output: &'a [u8]) -> Result<OpenFile<'a>, Reported> {
    let place = tillbox_layout::place_of(!reads_wide(run.direction), run.written);
    files::take_up(rt, output, place)
}

// Looks whether the files of a run that goes on are its own, as far as it can be told. Where they are not, that was said.
fn are_own(
    rt: &HostRuntime,
    run: Run,
    tables: &TableSet,
    source: &OpenFile,
    output: &[u8],
) -> Result<(), Reported> {
    let reader = files::open_input(rt, output)?;
    tails::are_of(run, tables, source, &reader)
}

// From a run on.
fn with_run(
    rt: &HostRuntime,
    job: Job,
    origin: Origin,
    tables: &TableSet,
    line: &mut [u8],
    source: &OpenFile,
    total: u64,
    names: Names,
) -> Result<Ending, Reported> {
    let (run, resumed) = match origin {
        Origin::Finished(run) => return nothing_to_do(rt, run, tables, source, names),
        Origin::Fresh(run) => (run, false),
        Origin::Resumed(run) => (run, true),
    };
    if resumed {
        are_own(rt, run, tables, source, names.output)?;
    }
    source.seek(tillbox_layout::place_of(reads_wide(run.direction), run.read))?;
    // The line of a job that saves could be put into the checkpoint's folder, which is tried before an output is touched.
    if let Some(path) = names.checkpoint {
        checkpoints::can_save(rt, path)?;
    }
    let target = if resumed {
        take_up(rt, run, names.output)?
    } else {
        files::make(rt, names.output)?
    };
    if let Output::Printed(width) = job.output {
        return closed(
            printed(run, tables, width, source, &target, total, line),
            target,
        );
    }
    converted(rt, job, run, tables, source, target, total, names)
}

// From an open output on.
fn converted(
    rt: &HostRuntime,
    job: Job,
    run: Run,
    tables: &TableSet,
    source: &OpenFile,
    target: OpenFile,
    total: u64,
    names: Names,
) -> Result<Ending, Reported> {
    if names.checkpoint.is_some() {
        files::sync_folder(rt, names.output);
    }
    let ending = match blocks::all_parts(
        rt,
        job,
        run,
        tables,
        source,
        &target,
        total,
        names.checkpoint,
    ) {
        Ok(turn) => finished(rt, job, turn, &target, names.checkpoint),
        Err(reported) => Err(reported),
    };
    // The output of a job that saves was made safe with its last line.
    if names.checkpoint.is_some() {
        return ending;
    }
    closed(ending, target)
}

// A preview whose lines are broken.
fn printed(
    run: Run,
    tables: &TableSet,
    width: u64,
    source: &OpenFile,
    target: &OpenFile,
    total: u64,
    line: &mut [u8],
) -> Result<Ending, Reported> {
    let page = tillbox_printing::print_ledger(run, tables, width, source, target, total, line)?;
    report::printed(page);
    Ok(Ending::Done)
}

// How a job ends whose output is made safe and closed.
pub fn closed(ending: Result<Ending, Reported>, target: OpenFile) -> Result<Ending, Reported> {
    target.finish()?;
    ending
}

// The end of a job whose run had ended before: its output is looked at as that of one that goes on.
fn nothing_to_do(
    rt: &HostRuntime,
    run: Run,
    tables: &TableSet,
    source: &OpenFile,
    names: Names,
) -> Result<Ending, Reported> {
    are_own(rt, run, tables, source, names.output)?;
    take_up(rt, run, names.output)?;
    messages::say(b"tillbox: nothing to do: the run of the checkpoint has ended\n");
    Ok(told(Turn::first(run), names.checkpoint))
}

// Looks whether an input has no half of a unit at its end. Where more may follow, that half waits in the input.
fn is_complete(job: Job, wide: bool, bytes: u64, input: &[u8]) -> Result<(), Reported> {
    if job.last && !tillbox_layout::is_whole(wide, bytes) {
        return Err(messages::wrong(input, b"an odd number of bytes is no text of UTF-16 units"));
    }
    Ok(())
}

// From an open input on, whose size is asked here: an earlier job may have worked on the checkpoint while the input grew.
fn with_size(
    rt: &HostRuntime,
    job: Job,
    tables: &TableSet,
    line: &mut [u8],
    source: &OpenFile,
    names: Names,
) -> Result<Ending, Reported> {
    let wide = reads_wide(job.direction);
    let bytes = source.size()?;
    is_complete(job, wide, bytes, names.input)?;
    let total = tillbox_layout::units_in(wide, bytes);
    if Run::READ_LIMIT < total {
        return Err(messages::refuse(Refusal::ReadLimit.number(), names.input));
    }
    let origin = resume::begin(rt, job, tables, total, names.checkpoint)?;
    with_run(rt, job, origin, tables, line, source, total, names)
}

// Does a job with a table set. `line` is room for a line that is broken. A job that saves has its checkpoint to itself. What happened is
// said on standard error.
pub fn with_tables(
    rt: &HostRuntime,
    job: Job,
    tables: &TableSet,
    line: &mut [u8],
    names: Names,
) -> Result<Ending, Reported> {
    tables::good_shape(names.table, tables)?;
    let source = files::open_input(rt, names.input)?;
    let Some(path) = names.checkpoint else {
        return with_size(rt, job, tables, line, &source, names);
    };
    let lock = tillbox_lock::take(rt, path)?;
    let ending = with_size(rt, job, tables, line, &source, names);
    lock.release(rt);
    ending
}
