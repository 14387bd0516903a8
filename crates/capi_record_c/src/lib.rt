// The exported run calls over one run record, updated where it stands: each is the call of the same name of the library
// `capi_record`, whose clauses it states again. include/till.h is the header; tools/build_c.sh writes the archive.

#![tactic(auto)]

ghost use Rattle.std.specs.Prelude.{length};
ghost use Rattle.capi.specs.Interface.{TillAnswered, till_call, till_page};
ghost use Rattle.capi_record.specs.Records.{till_outcome_of};
ghost use Rattle.engine.specs.declared.Direction.TheVariants.{Decoding, Encoding};

use capi::TillRun;
use capi_record::TillHere;

// One call of the decoding run in a record. A refused call leaves in the record what it held.
#[unsafe(no_mangle)]
pub extern "C" fn till_decode_here(
    run: &mut TillRun,
    page: u16,
    default_byte: u8,
    default_unit: u16,
    classes: &[u8],
    singles: &[u16],
    pairs: &[u16],
    index: &[u8],
    blocks: &[u16],
    piece: &[u8],
    last: u8,
    out: &mut [u16],
) -> TillHere
    ensures { TillAnswered (till_call Decoding run.old (till_page page default_byte default_unit classes.now singles.now pairs.now index.now blocks.now) piece.now last (length out.old)) (till_outcome_of result run.new) out.old out.new }
{
    capi_record::till_decode_here(
        run,
        page,
        default_byte,
        default_unit,
        classes,
        singles,
        pairs,
        index,
        blocks,
        piece,
        last,
        out,
    )
}

// One call of the encoding run in a record. A refused call leaves in the record what it held.
#[unsafe(no_mangle)]
pub extern "C" fn till_encode_here(
    run: &mut TillRun,
    page: u16,
    default_byte: u8,
    default_unit: u16,
    classes: &[u8],
    singles: &[u16],
    pairs: &[u16],
    index: &[u8],
    blocks: &[u16],
    piece: &[u16],
    last: u8,
    out: &mut [u8],
) -> TillHere
    ensures { TillAnswered (till_call Encoding run.old (till_page page default_byte default_unit classes.now singles.now pairs.now index.now blocks.now) piece.now last (length out.old)) (till_outcome_of result run.new) out.old out.new }
{
    capi_record::till_encode_here(
        run,
        page,
        default_byte,
        default_unit,
        classes,
        singles,
        pairs,
        index,
        blocks,
        piece,
        last,
        out,
    )
}
