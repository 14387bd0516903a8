// The refusals of a run call. (Document 01, "One call of a run", as amended by CR 5.)
ghost use Rattle.std.specs.Prelude.{◌≡◌, ◌≤◌, true, length};
ghost use Rattle.convert.specs.Runs.{piece_limit, read_limit};
ghost use Rattle.convert.specs.Calls.{lead_in};
ghost use Rattle.convert.specs.Steps.{refused_as, run_refusal, rest_refusal};

use crate::{Pending, Refusal, Run, rules};
use engine::Direction;

// Whether a pending byte is a lead byte here; of a pending unit nothing is asked.
fn pending_is_lead(pending: Pending, classes: &[u8]) -> bool
    requires { length classes.now ≡ 256 }
    ensures { result ≡ lead_in classes.now pending }
{
    match pending {
        Pending::Nothing => true,
        Pending::Byte(byte) => codepage_lookup::is_lead(classes, byte),
        Pending::High(_) => true,
    }
}

// The first of the checks 11 to 13 that a call on `count` units fails. The checks are two functions, each small enough to be inlined
// in both calls: so a run stays in registers, and a call's stack small.
pub fn check_run(direction: Direction, run: Run, page: u16, count: usize) -> Result<(), Refusal>
    ensures { refused_as result ≡ run_refusal direction run page count }
{
    if Run::PIECE_LIMIT < count {
        return Err(Refusal::PieceTooLong);
    }
    if !rules::valid_run(run) {
        return Err(Refusal::InvalidRun);
    }
    if direction != run.direction {
        return Err(Refusal::OtherRun);
    }
    if run.page != page {
        return Err(Refusal::OtherRun);
    }
    Ok(())
}

// The first of the checks 14 to 16 that it fails, where those of 11 to 13 passed.
pub fn check_rest(run: Run, classes: &[u8], count: usize) -> Result<(), Refusal>
    requires classes_len { length classes.now ≡ 256 }
    requires read_bound { (count ≤ piece_limit) × (run.read ≤ read_limit) }
    ensures { refused_as result ≡ rest_refusal run classes.now count }
{
    if !pending_is_lead(run.pending, classes) {
        return Err(Refusal::PendingNotLead);
    }
    if run.ended {
        return Err(Refusal::RunEnded);
    }
    if Run::READ_LIMIT < run.read + (count as u64) {
        return Err(Refusal::ReadLimit);
    }
    Ok(())
}
