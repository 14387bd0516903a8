// A conversion between code page bytes and UTF-16 units, as a run that is fed in pieces. (Document 01; docs/RULES.md, "A call of a
// run" and "The run, and its saved line".)
//
// In the order of use: `Run::start` gives a fresh run, or refuses (17); `decode` or `encode` takes the run, the tables, the next piece,
// whether it is the last one, and room for output, and gives an answer, what was read and written, and the run for the next call.
// `checkpoint` saves a run as a line of text.
//
//     let mut run = ..;                        // Run::start(Direction::Decoding, tables.numbers.page, Policy::standard())
//     let outcome = convert::decode(run, &tables, piece, last, out);
//     run = outcome.run;                       // outcome.answer.number(), outcome.read, outcome.written
//
// With one place of room more than the piece has bytes (encoding: one byte more than twice its units) no answer is 2.

#![tactic(auto)]

mod finish;
mod refusals;
pub mod rules;
mod units;

ghost use Rattle.std.specs.Prelude.{◌≡◌, length};
ghost use Rattle.codepage.specs.CodePage.{page_of};
ghost use Rattle.engine.specs.declared.Direction.TheVariants.{Decoding, Encoding};
ghost use Rattle.convert.specs.Runs.{start_of, start_number, started_as};
ghost use Rattle.convert.specs.Calls.{refusal_number, number_of, run_call, Answered};

use codepage::TableSet;
use engine::policies;
pub use engine::{Direction, Policy};
pub use units::{Input, byte_converter, unit_converter};

// What was read at the end of a piece and waits for what follows (documents 01 and 02: what is pending), or none.
// Kept: two of its cases hold a unit, of different sizes, so it is no Option.
#[derive(Clone, Copy)]
pub enum Pending {
    Nothing,
    // A lead byte, in a decoding run.
    Byte(u8),
    // A high surrogate, in an encoding run.
    High(u16),
}

// A run.
#[derive(Clone, Copy)]
pub struct Run {
    pub direction: Direction,
    pub page: u16,
    pub policy: Policy,
    pub pending: Pending,
    pub flags: u8,
    pub read: u64,
    pub written: u64,
    pub ended: bool,
}

// Why a start is refused.
#[derive(Clone, Copy, Debug, PartialEq, Eq)]
pub enum StartError {
    // 17: the page is 0, or a policy digit is not allowed.
    NotAllowed,
}

// Why a run call is refused.
#[derive(Clone, Copy, Debug, PartialEq, Eq)]
pub enum Refusal {
    // 10: the shape of the tables is not good.
    BadShape,
    // 11: the piece is over the limit.
    PieceTooLong,
    // 12: the run breaks the run rules.
    InvalidRun,
    // 13: the run is of the other direction or another page.
    OtherRun,
    // 14: the pending byte is no lead byte here.
    PendingNotLead,
    // 15: the run has ended.
    RunEnded,
    // 16: the read total would exceed the limit.
    ReadLimit,
}

// What a run call answers.
// Kept: documents 01 and 02 number its cases, and a refused call gives counts and the run too, so it is no Result.
#[derive(Clone, Copy, Debug, PartialEq, Eq)]
pub enum Answer {
    // 0: all read, nothing pending, not stopped.
    AllRead,
    // 1: all read, a lead byte or a high surrogate is pending.
    UnitPending,
    // 2: the next code does not fit.
    OutputFull,
    // 3: stopped by policy digit 0.
    Stopped,
    // 10 to 16: refused, with nothing read and nothing written.
    Refused(Refusal),
}

// The result of a run call: the units of the piece read, the units of output written, and the new run.
#[derive(Clone, Copy)]
pub struct Outcome {
    pub answer: Answer,
    pub read: usize,
    pub written: usize,
    pub run: Run,
}

impl StartError {
    // The number that document 01 gives the refusal.
    pub fn number(self) -> u8
        ensures { result ≡ start_number self }
    {
        match self {
            StartError::NotAllowed => 17,
        }
    }
}

impl Refusal {
    // The number that document 01 gives the refusal.
    pub fn number(self) -> u8
        ensures { result ≡ refusal_number self }
    {
        match self {
            Refusal::BadShape => 10,
            Refusal::PieceTooLong => 11,
            Refusal::InvalidRun => 12,
            Refusal::OtherRun => 13,
            Refusal::PendingNotLead => 14,
            Refusal::RunEnded => 15,
            Refusal::ReadLimit => 16,
        }
    }
}

impl Answer {
    // The number that document 01 gives the answer.
    pub fn number(self) -> u8
        ensures { result ≡ number_of self }
    {
        match self {
            Answer::AllRead => 0,
            Answer::UnitPending => 1,
            Answer::OutputFull => 2,
            Answer::Stopped => 3,
            Answer::Refused(refusal) => refusal.number(),
        }
    }
}

impl Run {
    // The most units of input in one call.
    pub const PIECE_LIMIT: usize = 65536;
    // The most units of input in a run.
    pub const READ_LIMIT: u64 = 4294967295;

    // A fresh run, if the page and the digits are allowed.
    #[tactic(auto, unfolding(crate::specs::Runs::start_of))]
    pub fn start(direction: Direction, page: u16, policy: Policy) -> Result<Run, StartError>
        ensures { started_as result ≡ start_of direction page policy }
    {
        if page == 0 || !policies::allowed(direction, policy) {
            return Err(StartError::NotAllowed);
        }
        Ok(Run {
            direction,
            page,
            policy,
            pending: Pending::Nothing,
            flags: 0,
            read: 0,
            written: 0,
            ended: false,
        })
    }
}

// One call of a run, in the direction of the piece's units.
pub fn call<I: Input>(
    run: Run,
    tables: &TableSet,
    piece: &[I],
    last: bool,
    out: &mut [I::Output],
) -> Outcome
    ensures { Answered (run_call I.direction run (page_of tables.now) (I.units piece.now) last (length (I.written out.old))) result (I.written out.old) (I.written out.new) }
{
    if !codepage::shape::good_shape(tables) {
        return Outcome::refused(Refusal::BadShape, run);
    }
    let first = refusals::check_run(I::direction(), run, tables.numbers.page, piece.len());
    if let Err(refusal) = first {
        return Outcome::refused(refusal, run);
    }
    let rest = refusals::check_rest(run, tables.classes, piece.len());
    if let Err(refusal) = rest {
        return Outcome::refused(refusal, run);
    }
    let progress = I::feed(run, tables, piece, last, out);
    let pending = run.pending.after(progress, piece);
    Outcome::accepted(run, progress, pending, piece.len(), last)
}

// One call of a decoding run.
// Kept: README.md and docs/PROMISES.md promise `call` for bytes by this name.
pub fn decode(run: Run, tables: &TableSet, piece: &[u8], last: bool, out: &mut [u16]) -> Outcome
    ensures { Answered (run_call Decoding run (page_of tables.now) piece.now last (length out.old)) result out.old out.new }
{
    call(run, tables, piece, last, out)
}

// One call of an encoding run.
// Kept: README.md and docs/PROMISES.md promise `call` for units by this name.
pub fn encode(run: Run, tables: &TableSet, piece: &[u16], last: bool, out: &mut [u8]) -> Outcome
    ensures { Answered (run_call Encoding run (page_of tables.now) piece.now last (length out.old)) result out.old out.new }
{
    call(run, tables, piece, last, out)
}
