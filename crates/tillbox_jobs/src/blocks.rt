// The parts of a job's input, one after the other. A part has at most 2,048 units (four blocks).
use crate::job::Job;
use crate::stops::Stop;
use crate::units::{Unit, decode_part, encode_part};
use crate::{clock, report, stops};
use codepage::TableSet;
use convert::{Direction, Outcome, Run};
use tillbox_checks::kinds;
use tillbox_checks::kinds::Kinds;
use tillbox_layout::front_len;
use tillbox_storage::files::OpenFile;
use tillbox_storage::messages::Reported;
use tillbox_storage::{checkpoints, messages};

// The run after some parts, the code that it was stopped at, where it is known, and the codes without a character that it met before.
#[derive(Clone, Copy)]
pub struct Turn {
    pub run: Run,
    pub stop: Option<Stop>,
    pub kinds: Kinds,
}

impl Turn {
    // Before the first part.
    pub fn first(run: Run) -> Turn {
        Turn {
            run,
            stop: None,
            kinds: Kinds::default(),
        }
    }

    // This turn with what earlier ones met.
    pub fn behind(self, earlier: Turn) -> Turn {
        Turn {
            run: self.run,
            stop: self.stop,
            kinds: earlier.kinds.with(self.kinds),
        }
    }
}

// The turn of a call on a part: `before` is the run before it. The codes that it replaced or skipped stand before the code that it stopped at.
pub fn turn_of<U: Unit>(
    before: Run,
    tables: &TableSet,
    part: &[U],
    last: bool,
    outcome: Outcome,
) -> Turn {
    let run = outcome.run;
    if !stops::is_stopped(run) {
        if run.flags % 8 == 0 {
            return Turn::first(run);
        }
        return Turn {
            run,
            stop: None,
            kinds: kinds::of(before, tables, part, last),
        };
    }
    let stop = stops::stop_in(before, tables, part, outcome.read);
    let size = stop.map_or(0, |code| code.size());
    let end = front_len(outcome.read.saturating_sub(size), part);
    Turn {
        run,
        stop,
        kinds: kinds::of(before, tables, &part[..end], false),
    }
}

// The turn of a call on a part with room enough. Where it was refused, that was said.
pub fn turn_taken<U: Unit>(
    before: Run,
    tables: &TableSet,
    part: &[U],
    last: bool,
    outcome: Outcome,
    source: &OpenFile,
) -> Result<Turn, Reported> {
    messages::taken(outcome.answer, source.path)?;
    Ok(turn_of(before, tables, part, last, outcome))
}

// The next part.
fn next_part(
    job: Job,
    run: Run,
    tables: &TableSet,
    source: &OpenFile,
    target: &OpenFile,
    total: u64,
) -> Result<Turn, Reported> {
    let size = tillbox_layout::block_len(tillbox_layout::PART, run.read, total);
    let last = tillbox_layout::is_final(tillbox_layout::PART, run.read, total) && job.last;
    match job.direction {
        Direction::Decoding => decode_part(run, tables, source, target, size, last),
        Direction::Encoding => encode_part(run, tables, source, target, size, last),
    }
}

// Progress and checkpoints on the way, after `done` parts. A line is saved after every 32 parts (128 blocks), unless the clock still
// shows the second of the last save: a journal that comes fast is not held up by syncs. Gives the second of the last save then.
fn on_the_way(
    rt: &HostRuntime,
    run: Run,
    done: u64,
    saved: Option<u64>,
    target: &OpenFile,
    total: u64,
    checkpoint: Option<&[u8]>,
) -> Result<Option<u64>, Reported> {
    if done % 2048 == 0 {
        report::progress(run, total);
    }
    let Some(path) = checkpoint else {
        return Ok(saved);
    };
    if done % 32 != 0 || clock::seconds(rt) == saved {
        return Ok(saved);
    }
    checkpoints::save(rt, run, target, path)?;
    Ok(clock::seconds(rt))
}

// All parts that are left, to the end of the input or of the run. There are at most as many as blocks; a last text of which nothing is left
// has one empty part.
pub fn all_parts(
    rt: &HostRuntime,
    job: Job,
    run: Run,
    tables: &TableSet,
    source: &OpenFile,
    target: &OpenFile,
    total: u64,
    checkpoint: Option<&[u8]>,
) -> Result<Turn, Reported> {
    let count = tillbox_layout::block_count(run.read, total, job.last);
    let mut turn = Turn::first(run);
    let mut saved = clock::seconds(rt);
    for done in 0..count {
        let next = next_part(job, turn.run, tables, source, target, total)?;
        turn = next.behind(turn);
        if turn.run.ended {
            return Ok(turn);
        }
        saved = on_the_way(rt, turn.run, done + 1, saved, target, total, checkpoint)?;
        if total <= turn.run.read {
            break;
        }
    }
    Ok(turn)
}
