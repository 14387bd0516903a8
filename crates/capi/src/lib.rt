// The C interface: calls over numbers, slices and structs of numbers, which `capi_c` exports. include/till.h is its header and
// examples/example.c a program that uses it; tools/build_c.sh writes the archive.

#![tactic(auto)]

ghost use Rattle.std.specs.Prelude.{◌≡◌, Bool, ℕ, length};
ghost use Rattle.codepage.specs.CodePage.{first_fault};
ghost use Rattle.engine.specs.declared.Direction.TheVariants.{Decoding, Encoding};
ghost use Rattle.convert.specs.Runs.{started_as};
ghost use Rattle.checkpoint.specs.Line.{read_of, restored_as, written_as};
ghost use Rattle.capi.specs.Interface.{direction_in, direction_out, is_pending, pending_in, pending_out, flag_out, is_run, run_on, run_out, no_run, till_page, is_last, till_call, TillAnswered, page_named, answer_out, start_out, till_start, load_out, till_save, TillSavedAs, fault_out};

pub mod cutting;
pub mod tables;

use checkpoint::Refusal;
use codepage::Fault;
use convert::{Outcome, Pending, Run, StartError};
use engine::{Direction, Policy};

// A run as C sees it. direction: 0 decoding, 1 encoding; pending: the pending byte, the
// pending high surrogate, or 256 for none; ended: 0 or 1.
#[repr(C)]
#[derive(Clone, Copy)]
pub struct TillRun {
    pub read: u64,
    pub written: u64,
    pub page: u16,
    pub pending: u16,
    pub direction: u8,
    pub single: u8,
    pub pair: u8,
    pub invalid: u8,
    pub flags: u8,
    pub ended: u8,
}

// What a run call answers.
#[repr(C)]
#[derive(Clone, Copy)]
pub struct TillOutcome {
    pub run: TillRun,
    pub read: usize,
    pub written: usize,
    pub number: u8,
}

// What a start and line reading answer: 0 and the run, or the number of the refusal.
#[repr(C)]
#[derive(Clone, Copy)]
pub struct TillHanded {
    pub run: TillRun,
    pub number: u8,
}

// What line writing answers: 0 and the line's length, or the number of the refusal.
#[repr(C)]
#[derive(Clone, Copy)]
pub struct TillSaved {
    pub size: usize,
    pub number: u8,
}

// What the shape report answers: the number of the fault, and its place in a table.
#[repr(C)]
#[derive(Clone, Copy)]
pub struct TillFault {
    pub place: usize,
    pub number: u8,
}

// Whether a number is one of what is pending.
fn is_pending(number: u16) -> bool
    ensures { result ≡ is_pending number }
{
    if number <= 256 {
        return true;
    }
    codepage_lookup::is_high(number)
}

// Whether numbers are those of a run.
fn is_run(run: TillRun) -> bool
    ensures { result ≡ is_run run }
{
    if 1 < run.direction {
        return false;
    }
    if !is_pending(run.pending) {
        return false;
    }
    run.ended <= 1
}

// Any mark but 0 is last.
fn is_last(mark: u8) -> bool
    ensures { result ≡ is_last mark }
{
    mark != 0
}

// The direction that a number names: 0 decoding, any other encoding. The calls refuse numbers over 1.
fn direction_in(number: u8) -> Direction
    ensures { result ≡ direction_in number }
{
    if number == 0 {
        return Direction::Decoding;
    }
    Direction::Encoding
}

// A direction's number.
fn direction_out(direction: Direction) -> u8
    ensures { result ≡ direction_out direction }
{
    match direction {
        Direction::Decoding => 0,
        Direction::Encoding => 1,
    }
}

// What a number says is pending: a byte, nothing (256), or a high surrogate.
fn pending_in(number: u16) -> Pending
    ensures { result ≡ pending_in number }
{
    if number < 256 {
        return Pending::Byte(number as u8);
    }
    if number == 256 {
        return Pending::Nothing;
    }
    Pending::High(number)
}

// The number of what is pending: 256 for nothing.
fn pending_out(pending: Pending) -> u16
    ensures { result ≡ pending_out pending }
{
    match pending {
        Pending::Nothing => 256,
        Pending::Byte(byte) => byte as u16,
        Pending::High(unit) => unit,
    }
}

// 1 for true, 0 for false.
fn flag_out(flag: bool) -> u8
    ensures { result ≡ flag_out flag }
{
    u8::from(flag)
}

// The run that numbers name, on a page.
fn run_on(page: u16, run: TillRun) -> Run
    ensures { result ≡ run_on page run }
{
    let direction = direction_in(run.direction);
    let pending = pending_in(run.pending);
    let policy = Policy {
        single: run.single,
        pair: run.pair,
        invalid: run.invalid,
    };
    Run {
        direction,
        page,
        policy,
        pending,
        flags: run.flags,
        read: run.read,
        written: run.written,
        ended: run.ended == 1,
    }
}

impl From<Run> for TillRun {
    ghost from_gives = { λ run r. r ≡ run_out run };

    // The numbers of a run.
    fn from(run: Run) -> TillRun {
        let pending = run.pending;
        let direction = run.direction;
        let policy = run.policy;
        let byte = pending_out(pending);
        let number = direction_out(direction);
        let ended = flag_out(run.ended);
        TillRun {
            read: run.read,
            written: run.written,
            page: run.page,
            pending: byte,
            direction: number,
            single: policy.single,
            pair: policy.pair,
            invalid: policy.invalid,
            flags: run.flags,
            ended,
        }
    }
}

// The page of numbers that name a run, or 0: a run of page 0 is refused with 10, 11 or 12.
fn page_named(run: TillRun) -> u16
    ensures { result ≡ page_named run }
{
    if is_run(run) {
        return run.page;
    }
    0
}

// What a call answers by the outcome of the run's call: numbers that name no run are given back as they were.
fn answer_out(run: TillRun, o: Outcome) -> TillOutcome
    ensures { result ≡ answer_out run o }
{
    let answer = o.answer;
    let number = answer.number();
    if !is_run(run) {
        return TillOutcome {
            run,
            read: o.read,
            written: o.written,
            number,
        };
    }
    let run = TillRun::from(o.run);
    TillOutcome {
        run,
        read: o.read,
        written: o.written,
        number,
    }
}

// One call of a decoding run.
// Kept: the C interface exports both by name.
pub fn till_decode(
    run: TillRun,
    page: u16,
    default_byte: u8,
    default_unit: u16,
    classes: &[u8],
    singles: &[u16],
    pairs: &[u16],
    index: &[u8],
    blocks: &[u16],
    piece: &[u8],
    last: u8,
    out: &mut [u16],
) -> TillOutcome
    ensures { TillAnswered (till_call Decoding run (till_page page default_byte default_unit classes.now singles.now pairs.now index.now blocks.now) piece.now last (length out.old)) result out.old out.new }
{
    let tables = tables::table_set(
        page,
        default_byte,
        default_unit,
        classes,
        singles,
        pairs,
        index,
        blocks,
    );
    let inner = run_on(page_named(run), run);
    let o = convert::decode(inner, &tables, piece, is_last(last), out);
    answer_out(run, o)
}

// One call of an encoding run.
// Kept: the C interface exports both by name.
pub fn till_encode(
    run: TillRun,
    page: u16,
    default_byte: u8,
    default_unit: u16,
    classes: &[u8],
    singles: &[u16],
    pairs: &[u16],
    index: &[u8],
    blocks: &[u16],
    piece: &[u16],
    last: u8,
    out: &mut [u8],
) -> TillOutcome
    ensures { TillAnswered (till_call Encoding run (till_page page default_byte default_unit classes.now singles.now pairs.now index.now blocks.now) piece.now last (length out.old)) result out.old out.new }
{
    let tables = tables::table_set(
        page,
        default_byte,
        default_unit,
        classes,
        singles,
        pairs,
        index,
        blocks,
    );
    let inner = run_on(page_named(run), run);
    let o = convert::encode(inner, &tables, piece, is_last(last), out);
    answer_out(run, o)
}

// The numbers beside a refusal: no run has page 0.
fn no_run() -> TillRun
    ensures { result ≡ no_run }
{
    TillRun {
        read: 0,
        written: 0,
        page: 0,
        pending: 256,
        direction: 0,
        single: 0,
        pair: 0,
        invalid: 0,
        flags: 0,
        ended: 0,
    }
}

impl From<Result<Run, StartError>> for TillHanded {
    ghost from_gives = { λ started r. r ≡ start_out (started_as started) };

    // A start's answer as numbers: 0 and the run, or 17.
    fn from(started: Result<Run, StartError>) -> TillHanded {
        match started {
            Ok(inner) => {
                let run = TillRun::from(inner);
                TillHanded { run, number: 0 }
            }
            Err(StartError::NotAllowed) => {
                let run = no_run();
                TillHanded { run, number: 17 }
            }
        }
    }
}

// A fresh run, if the numbers are allowed: 0, or 17.
pub fn till_start(direction: u8, page: u16, single: u8, pair: u8, invalid: u8) -> TillHanded
    ensures { result ≡ till_start direction page single pair invalid }
{
    if 1 < direction {
        let run = no_run();
        return TillHanded { run, number: 17 };
    }
    let way = direction_in(direction);
    let policy = Policy {
        single,
        pair,
        invalid,
    };
    let started = Run::start(way, page, policy);
    TillHanded::from(started)
}

impl From<Option<Run>> for TillHanded {
    ghost from_gives = { λ restored r. r ≡ load_out (restored_as restored) };

    // The answer of line reading as numbers: 0 and the run, or 18.
    fn from(restored: Option<Run>) -> TillHanded {
        match restored {
            Some(inner) => {
                let run = TillRun::from(inner);
                TillHanded { run, number: 0 }
            }
            None => {
                let run = no_run();
                TillHanded { run, number: 18 }
            }
        }
    }
}

// Reads the run of a saved line: 0, or 18.
pub fn till_load(line: &[u8]) -> TillHanded
    ensures { result ≡ load_out (read_of line.now) }
{
    let restored = checkpoint::read(line);
    TillHanded::from(restored)
}

impl From<Result<usize, Refusal>> for TillSaved {
    ghost from_gives = { λ written r. (r.number ≡ (written_as written).number) × (r.size ≡ (written_as written).size) };

    // The answer of line writing as numbers: 0 and the line's length, or 12 or 19.
    fn from(written: Result<usize, Refusal>) -> TillSaved {
        match written {
            Ok(size) => TillSaved { size, number: 0 },
            Err(Refusal::InvalidRun) => TillSaved {
                size: 0,
                number: 12,
            },
            Err(Refusal::NoRoom) => TillSaved {
                size: 0,
                number: 19,
            },
        }
    }
}

// Writes a run's line at the front of the output: 0 and its length, or 12, or 19.
pub fn till_save(run: TillRun, out: &mut [u8]) -> TillSaved
    ensures { TillSavedAs (till_save run (length out.old)) result out.old out.new }
{
    if !is_run(run) {
        return TillSaved {
            size: 0,
            number: 12,
        };
    }
    let inner = run_on(run.page, run);
    let written = checkpoint::write(inner, out);
    TillSaved::from(written)
}

impl From<Result<(), Fault>> for TillFault {
    ghost from_gives = { λ report r. r ≡ fault_out report };

    // The shape report as a number and a place.
    fn from(report: Result<(), Fault>) -> TillFault {
        match report {
            Ok(()) => TillFault {
                place: 0,
                number: 0,
            },
            Err(Fault::Page) => TillFault {
                place: 0,
                number: 1,
            },
            Err(Fault::ClassesSize) => TillFault {
                place: 0,
                number: 2,
            },
            Err(Fault::SinglesSize) => TillFault {
                place: 0,
                number: 3,
            },
            Err(Fault::PairsSize) => TillFault {
                place: 0,
                number: 4,
            },
            Err(Fault::IndexSize) => TillFault {
                place: 0,
                number: 5,
            },
            Err(Fault::BlocksSize) => TillFault {
                place: 0,
                number: 6,
            },
            Err(Fault::Class(place)) => TillFault { place, number: 7 },
            Err(Fault::Lead(place)) => TillFault { place, number: 8 },
            Err(Fault::Number(place)) => TillFault { place, number: 9 },
        }
    }
}

// The shape report: 0 if the shape is good, else the number and place of its first fault.
pub fn till_shape(
    page: u16,
    default_byte: u8,
    default_unit: u16,
    classes: &[u8],
    singles: &[u16],
    pairs: &[u16],
    index: &[u8],
    blocks: &[u16],
) -> TillFault
    ensures { result ≡ fault_out (first_fault (till_page page default_byte default_unit classes.now singles.now pairs.now index.now blocks.now)) }
{
    let tables = tables::table_set(
        page,
        default_byte,
        default_unit,
        classes,
        singles,
        pairs,
        index,
        blocks,
    );
    let report = codepage::shape_report(&tables);
    TillFault::from(report)
}
