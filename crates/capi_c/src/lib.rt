// The exported calls of the C interface: each is the call of the same name of the library `capi`, whose clauses it states again.
// include/till.h is the header; tools/build_c.sh writes the archive.

#![tactic(auto)]

ghost use Rattle.std.specs.Prelude.{length, ◌≡◌};
ghost use Rattle.capi.specs.Cutting.{TillCut};
ghost use Rattle.capi.specs.Interface.{TillAnswered, TillSavedAs, fault_out, load_out, till_call, till_page, till_save, till_start};
ghost use Rattle.checkpoint.specs.Line.{read_of};
ghost use Rattle.codepage.specs.CodePage.{first_fault};
ghost use Rattle.engine.specs.declared.Direction.TheVariants.{Decoding, Encoding};

use capi::cutting::TillField;
use capi::{TillFault, TillHanded, TillOutcome, TillRun, TillSaved};

// One call of a decoding run.
#[unsafe(no_mangle)]
pub extern "C" fn till_decode(
    run: TillRun,
    page: u16,
    default_byte: u8,
    default_unit: u16,
    classes: &[u8],
    singles: &[u16],
    pairs: &[u16],
    index: &[u8],
    blocks: &[u16],
    piece: &[u8],
    last: u8,
    out: &mut [u16],
) -> TillOutcome
    ensures { TillAnswered (till_call Decoding run (till_page page default_byte default_unit classes.now singles.now pairs.now index.now blocks.now) piece.now last (length out.old)) result out.old out.new }
{
    capi::till_decode(
        run,
        page,
        default_byte,
        default_unit,
        classes,
        singles,
        pairs,
        index,
        blocks,
        piece,
        last,
        out,
    )
}

// One call of an encoding run.
#[unsafe(no_mangle)]
pub extern "C" fn till_encode(
    run: TillRun,
    page: u16,
    default_byte: u8,
    default_unit: u16,
    classes: &[u8],
    singles: &[u16],
    pairs: &[u16],
    index: &[u8],
    blocks: &[u16],
    piece: &[u16],
    last: u8,
    out: &mut [u8],
) -> TillOutcome
    ensures { TillAnswered (till_call Encoding run (till_page page default_byte default_unit classes.now singles.now pairs.now index.now blocks.now) piece.now last (length out.old)) result out.old out.new }
{
    capi::till_encode(
        run,
        page,
        default_byte,
        default_unit,
        classes,
        singles,
        pairs,
        index,
        blocks,
        piece,
        last,
        out,
    )
}

// A fresh run, if the numbers are allowed: 0, or 17.
#[unsafe(no_mangle)]
pub extern "C" fn till_start(
    direction: u8,
    page: u16,
    single: u8,
    pair: u8,
    invalid: u8,
) -> TillHanded
    ensures { result ≡ till_start direction page single pair invalid }
{
    capi::till_start(direction, page, single, pair, invalid)
}

// Reads the run of a saved line: 0, or 18.
#[unsafe(no_mangle)]
pub extern "C" fn till_load(line: &[u8]) -> TillHanded
    ensures { result ≡ load_out (read_of line.now) }
{
    capi::till_load(line)
}

// Writes a run's line at the front of the output: 0 and its length, or 12, or 19.
#[unsafe(no_mangle)]
pub extern "C" fn till_save(run: TillRun, out: &mut [u8]) -> TillSaved
    ensures { TillSavedAs (till_save run (length out.old)) result out.old out.new }
{
    capi::till_save(run, out)
}

// The shape report: 0 if the shape is good, else the number and place of its first fault.
#[unsafe(no_mangle)]
pub extern "C" fn till_shape(
    page: u16,
    default_byte: u8,
    default_unit: u16,
    classes: &[u8],
    singles: &[u16],
    pairs: &[u16],
    index: &[u8],
    blocks: &[u16],
) -> TillFault
    ensures { result ≡ fault_out (first_fault (till_page page default_byte default_unit classes.now singles.now pairs.now index.now blocks.now)) }
{
    capi::till_shape(
        page,
        default_byte,
        default_unit,
        classes,
        singles,
        pairs,
        index,
        blocks,
    )
}

// The next field of a text, or the block held. Any mark `last` but 0 is last.
#[unsafe(no_mangle)]
pub extern "C" fn till_next_field(
    held: usize,
    buffer: &mut [u16],
    block: &[u16],
    last: u8,
) -> TillField
    ensures { TillCut held buffer.old block.now last result buffer.new }
{
    capi::cutting::till_next_field(held, buffer, block, last)
}
