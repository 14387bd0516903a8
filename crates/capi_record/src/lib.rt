// The C interface of the run call over one run record, updated where it stands (CR 13): calls that `capi_record_c` exports.
// include/till.h is its header; tools/build_c.sh writes the archive.

#![tactic(auto)]

ghost use Rattle.std.specs.Prelude.{◌≡◌, ℕ, length};
ghost use Rattle.engine.specs.declared.Direction.TheVariants.{Decoding, Encoding};
ghost use Rattle.capi.specs.Interface.{till_page, till_call, TillAnswered};
ghost use Rattle.capi_record.specs.Records.{till_outcome_of};

use capi::{TillOutcome, TillRun};

// What a call on a record answers; the new run is in the record.
#[repr(C)]
#[derive(Clone, Copy)]
pub struct TillHere {
    pub read: usize,
    pub written: usize,
    pub number: u8,
}

// Puts the new run of a call into the record, and answers the rest.
fn stored(run: &mut TillRun, outcome: TillOutcome) -> TillHere
    ensures { till_outcome_of result run.new ≡ outcome }
{
    *run = outcome.run;
    TillHere {
        read: outcome.read,
        written: outcome.written,
        number: outcome.number,
    }
}

// One call of the decoding run in a record. A refused call leaves in the record what it held.
// Kept: the C interface exports both by name.
pub fn till_decode_here(
    run: &mut TillRun,
    page: u16,
    default_byte: u8,
    default_unit: u16,
    classes: &[u8],
    singles: &[u16],
    pairs: &[u16],
    index: &[u8],
    blocks: &[u16],
    piece: &[u8],
    last: u8,
    out: &mut [u16],
) -> TillHere
    ensures { TillAnswered (till_call Decoding run.old (till_page page default_byte default_unit classes.now singles.now pairs.now index.now blocks.now) piece.now last (length out.old)) (till_outcome_of result run.new) out.old out.new }
{
    let outcome = capi::till_decode(
        *run,
        page,
        default_byte,
        default_unit,
        classes,
        singles,
        pairs,
        index,
        blocks,
        piece,
        last,
        out,
    );
    stored(run, outcome)
}

// One call of the encoding run in a record. A refused call leaves in the record what it held.
// Kept: the C interface exports both by name.
pub fn till_encode_here(
    run: &mut TillRun,
    page: u16,
    default_byte: u8,
    default_unit: u16,
    classes: &[u8],
    singles: &[u16],
    pairs: &[u16],
    index: &[u8],
    blocks: &[u16],
    piece: &[u16],
    last: u8,
    out: &mut [u8],
) -> TillHere
    ensures { TillAnswered (till_call Encoding run.old (till_page page default_byte default_unit classes.now singles.now pairs.now index.now blocks.now) piece.now last (length out.old)) (till_outcome_of result run.new) out.old out.new }
{
    let outcome = capi::till_encode(
        *run,
        page,
        default_byte,
        default_unit,
        classes,
        singles,
        pairs,
        index,
        blocks,
        piece,
        last,
        out,
    );
    stored(run, outcome)
}
