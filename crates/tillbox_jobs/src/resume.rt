// Where a job begins: a fresh run, or the run of its checkpoint.
use crate::job::Job;
use crate::report;
use codepage::TableSet;
use convert::{Answer, Direction, Policy, Refusal, Run};
use std::io::ErrorKind;
use tillbox_checks::kinds::Kinds;
use tillbox_storage::files::OpenFile;
use tillbox_storage::messages::Reported;
use tillbox_storage::{checkpoints, files, messages};

// The run that a job begins with.
#[derive(Clone, Copy)]
pub enum Origin {
    // A fresh one: its output is made anew.
    Fresh(Run),
    // One that goes on over an output that is there.
    Resumed(Run),
    // One that has ended, and there is nothing more to read.
    Finished(Run),
}

// A fresh run. Where the page or the digits are not allowed, that was said.
pub fn start(direction: Direction, page: u16, policy: Policy) -> Result<Run, Reported> {
    Run::start(direction, page, policy).map_err(|why| {
        let reported = messages::refuse(why.number(), b"policy");
        report::digits_refused(policy, direction);
        reported
    })
}

// The beginning of a job that has no checkpoint, or whose checkpoint is not there yet.
fn fresh(job: Job, page: u16) -> Result<Origin, Reported> {
    let policy = job.policy.unwrap_or(Policy::standard());
    Ok(Origin::Fresh(start(job.direction, page, policy)?))
}

// What a call of the run would answer here: one that is not marked last, on no units and with no room to speak of, changes nothing.
fn answer_of(run: Run, direction: Direction, tables: &TableSet) -> Answer {
    match direction {
        Direction::Decoding => convert::decode(run, tables, &[], false, &mut [0u16; 1]).answer,
        Direction::Encoding => convert::encode(run, tables, &[], false, &mut [0u8; 1]).answer,
    }
}

// Says so where another policy was asked for than the run has.
fn note_policy(job: Job, run: Run) {
    if job.policy.is_none_or(|asked| asked == run.policy) {
        return;
    }
    messages::say(b"tillbox: note: the run goes on under its own policy, ");
    report::say_policy(run.policy);
    messages::say(b"\n");
}

// A run that has read more than there is.
fn beyond(path: &[u8]) -> Reported {
    messages::wrong(path, b"the checkpoint is beyond the end of the input")
}

// A run that a call would be accepted for.
fn going_on(job: Job, run: Run, total: u64, path: &[u8]) -> Result<Origin, Reported> {
    if total < run.read {
        return Err(beyond(path));
    }
    note_policy(job, run);
    Ok(Origin::Resumed(run))
}

// A run that has ended.
fn ended(run: Run, total: u64, path: &[u8]) -> Result<Origin, Reported> {
    if total == run.read {
        return Ok(Origin::Finished(run));
    }
    if total < run.read {
        return Err(beyond(path));
    }
    let reported = messages::refuse(Refusal::RunEnded.number(), path);
    report::more_input(run, total, path);
    report::summary(run, None, Kinds::default(), Some(path));
    Err(reported)
}

// Where a job begins that takes up the run of its checkpoint: the run goes on, has ended, or is refused here.
fn resumed(
    job: Job,
    run: Run,
    tables: &TableSet,
    total: u64,
    path: &[u8],
) -> Result<Origin, Reported> {
    match answer_of(run, job.direction, tables) {
        Answer::Refused(Refusal::RunEnded) => ended(run, total, path),
        Answer::Refused(why) => {
            let reported = messages::refuse(why.number(), path);
            if why == Refusal::OtherRun {
                report::other_run(run, job.direction, tables.numbers.page);
            }
            Err(reported)
        }
        _ => going_on(job, run, total, path),
    }
}

// The run that a job begins with, on an input of `total` units.
pub fn begin(
    rt: &HostRuntime,
    job: Job,
    tables: &TableSet,
    total: u64,
    checkpoint: Option<&[u8]>,
) -> Result<Origin, Reported> {
    let Some(path) = checkpoint else {
        return fresh(job, tables.numbers.page);
    };
    match files::open_read(rt, path) {
        Ok(file) => {
            let run = checkpoints::read_line(&OpenFile { file, path })?;
            resumed(job, run, tables, total, path)
        }
        Err(error) => {
            if error.kind() == ErrorKind::NotFound {
                return fresh(job, tables.numbers.page);
            }
            Err(messages::cannot(b"open", path, error))
        }
    }
}
