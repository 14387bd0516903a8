// The run rules. (Document 01, "The run and its saved line", as amended by CR 5.)
ghost use Rattle.std.specs.Prelude.{◌≡◌, ◌*◌, ◌≤◌};
ghost use Rattle.convert.specs.Runs.{read_limit, most_written, pending_allowed, valid_run};

use crate::{Pending, Run};
use engine::Direction;

// The most that can have been written for what was read.
fn most_written(direction: Direction, read: u64) -> u64
    requires { read ≤ read_limit }
    ensures { result ≡ most_written direction read }
{
    match direction {
        Direction::Decoding => read,
        Direction::Encoding => 2 * read,
    }
}

// Whether what is pending, if anything, is allowed: it is of the run's direction, the run is not ended, and what it may write is
// within what was read.
fn pending_allowed(
    pending: Pending,
    direction: Direction,
    ended: bool,
    written: u64,
    read: u64,
) -> bool
    requires { (read ≤ read_limit) × (written ≤ 2 * read) }
    ensures { result ≡ pending_allowed pending direction ended written read }
{
    let decoding = direction == Direction::Decoding;
    match pending {
        Pending::Nothing => true,
        Pending::Byte(_) => decoding && !ended && written < read,
        Pending::High(unit) => {
            !decoding && codepage_lookup::is_high(unit) && !ended && written + 2 <= 2 * read
        }
    }
}

// Whether a run keeps the run rules.
#[tactic(auto, unfolding(crate::specs::Runs::valid_run))]
pub fn valid_run(run: Run) -> bool
    ensures { result ≡ valid_run run }
{
    run.page != 0
        && engine::policies::allowed(run.direction, run.policy)
        && run.flags <= 15
        && run.read <= Run::READ_LIMIT
        && run.written <= most_written(run.direction, run.read)
        && (run.flags < 8 || run.ended)
        && pending_allowed(run.pending, run.direction, run.ended, run.written, run.read)
}
