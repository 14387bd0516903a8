// The result of a run call.
ghost use Rattle.std.specs.Prelude.{◌≡◌, ℕ, ◌+◌, ◌≤◌, ◌<◌, ◌^◌, eqb, length};
ghost use Rattle.codepage.specs.CodePage.{pick};
ghost use Rattle.convert.specs.Runs.{read_limit};
ghost use Rattle.convert.specs.Calls.{number_of, pending_count, final_unit, units_read, pending_after, ended_after};
ghost use Rattle.convert.specs.Steps.{pending_byte, pending_high, Finished, refused_outcome};

use crate::{Answer, Input, Outcome, Pending, Refusal, Run};
use engine::progress::Progress;

impl Pending {
    // The pending byte of a decoding run.
    pub fn byte(self) -> Option<u8>
        ensures { result ≡ pending_byte self }
    {
        match self {
            Pending::Byte(byte) => Some(byte),
            _ => None,
        }
    }

    // The pending unit of an encoding run, a high surrogate.
    pub fn high(self) -> Option<u16>
        ensures { result ≡ pending_high self }
    {
        match self {
            Pending::High(unit) => Some(unit),
            _ => None,
        }
    }

    // How many units are pending: 0 or 1.
    fn count(self) -> usize
        ensures { result ≡ pending_count self }
    {
        match self {
            Pending::Nothing => 0,
            _ => 1,
        }
    }

    // The final unit of a call: the piece's or, where it is empty, the one that was pending.
    fn or_last<I: Input>(self, piece: &[I]) -> Pending
        ensures { result ≡ final_unit I.direction self (I.units piece.now) }
    {
        match piece.last() {
            Some(unit) => unit.pending(),
            None => self,
        }
    }

    // What is pending after a call: the final unit where it waits; what was pending stays so until a code with it is taken.
    #[tactic(auto, unfolding(crate::specs::Calls::pending_after))]
    pub fn after<I: Input>(self, s: Progress, piece: &[I]) -> Pending
        ensures { result ≡ pending_after I.direction self (I.units piece.now) s.answer s.used }
    {
        if s.answer == 1 {
            return self.or_last(piece);
        }
        if s.used == 0 {
            return self;
        }
        Pending::Nothing
    }
}

// The units of the piece that the call read: all of it where its final unit waits, else those of the codes taken without the one
// that was pending.
#[tactic(auto, unfolding(crate::specs::Calls::units_read))]
fn read_of(pending: Pending, count: usize, s: Progress) -> usize
    ensures { result ≡ units_read pending count s.answer s.used }
{
    if s.answer == 1 {
        return count;
    }
    s.used.saturating_sub(pending.count())
}

// Whether the run has ended: at a stop, and in a call marked last when all is read and nothing is pending.
fn ended_after(last: bool, answer: Answer) -> bool
    ensures { result ≡ ended_after last (number_of answer) }
{
    match answer {
        Answer::Stopped => true,
        Answer::AllRead => last,
        _ => false,
    }
}

// The answer of an accepted call, by the engine's number.
fn answer_of(answer: u8) -> Answer
    requires { answer ≤ 3 }
    ensures { number_of result ≡ answer }
{
    match answer {
        0 => Answer::AllRead,
        1 => Answer::UnitPending,
        2 => Answer::OutputFull,
        _ => Answer::Stopped,
    }
}

impl Outcome {
    // An accepted call on `count` units.
    pub fn accepted(run: Run, s: Progress, pending: Pending, count: usize, last: bool) -> Outcome
        requires answer_bound { s.answer ≤ 3 }
        requires used_bound { (s.used ≤ pending_count run.pending + count) × (run.read + count ≤ read_limit) × (run.written + s.written < 2 ^ 64) }
        ensures { Finished run s pending count last result }
    {
        let answer = answer_of(s.answer);
        let read = read_of(run.pending, count, s);
        let next = Run {
            pending,
            flags: run.flags | s.flags,
            read: run.read + (read as u64),
            written: run.written + (s.written as u64),
            ended: ended_after(last, answer),
            ..run
        };
        Outcome {
            answer,
            read,
            written: s.written,
            run: next,
        }
    }

    // A refused call.
    pub fn refused(refusal: Refusal, run: Run) -> Outcome
        ensures { result ≡ refused_outcome refusal run }
    {
        let answer = Answer::Refused(refusal);
        Outcome {
            answer,
            read: 0,
            written: 0,
            run,
        }
    }
}
