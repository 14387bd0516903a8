// The exported calls of the products: breaks of a text into lines, the index of a journal, the standard spelling, and encoding inside
// one buffer. Each is the call of the same name of the library `capi_products`, whose clauses it states again. include/till.h is the
// header; tools/build_c.sh writes the archive.

#![tactic(auto)]

ghost use Rattle.std.specs.Prelude.{length, ◌≡◌};
ghost use Rattle.capi.specs.Interface.{till_page};
ghost use Rattle.capi_products.specs.Buffer.{TillEncodedAs};
ghost use Rattle.capi_products.specs.Index.{TillIndexed, found_out};
ghost use Rattle.capi_products.specs.Lines.{TillProposed, checked_out};
ghost use Rattle.capi_products.specs.Spelling.{TillSpelledAs};
ghost use Rattle.charindex.specs.Calls.{appending_of, finding_of};
ghost use Rattle.engine.specs.Policies.{digits};
ghost use Rattle.inplace.specs.InPlace.{in_place_of};
ghost use Rattle.linebreak.specs.Calls.{check_of, proposal_of};
ghost use Rattle.spelling.specs.Calls.{spelling_of};

use capi_products::buffer::TillInPlace;
use capi_products::index::{TillAppended, TillFound};
use capi_products::lines::TillBreaks;
use capi_products::names::TillSpelled;

// Checks breaks of a text into lines of at most `width` bytes: 0, 10, 11 or 30.
#[unsafe(no_mangle)]
pub extern "C" fn till_check_breaks(
    page: u16,
    default_byte: u8,
    default_unit: u16,
    classes: &[u8],
    singles: &[u16],
    pairs: &[u16],
    index: &[u8],
    blocks: &[u16],
    text: &[u8],
    width: u64,
    breaks: &[u64],
) -> u8
    ensures { result ≡ checked_out (check_of (till_page page default_byte default_unit classes.now singles.now pairs.now index.now blocks.now) text.now width breaks.now) }
{
    capi_products::lines::till_check_breaks(
        page,
        default_byte,
        default_unit,
        classes,
        singles,
        pairs,
        index,
        blocks,
        text,
        width,
        breaks,
    )
}

// Proposes breaks of a text into lines of at most `width` bytes.
#[unsafe(no_mangle)]
pub extern "C" fn till_propose_breaks(
    page: u16,
    default_byte: u8,
    default_unit: u16,
    classes: &[u8],
    singles: &[u16],
    pairs: &[u16],
    index: &[u8],
    blocks: &[u16],
    text: &[u8],
    width: u64,
    out: &mut [u64],
) -> TillBreaks
    ensures { TillProposed (proposal_of (till_page page default_byte default_unit classes.now singles.now pairs.now index.now blocks.now) text.now width (length out.old)) result out.old out.new }
{
    capi_products::lines::till_propose_breaks(
        page,
        default_byte,
        default_unit,
        classes,
        singles,
        pairs,
        index,
        blocks,
        text,
        width,
        out,
    )
}

// Extends the index of a journal that had `former` bytes.
#[unsafe(no_mangle)]
pub extern "C" fn till_append_index(
    page: u16,
    default_byte: u8,
    default_unit: u16,
    classes: &[u8],
    singles: &[u16],
    pairs: &[u16],
    index: &[u8],
    blocks: &[u16],
    journal: &[u8],
    former: usize,
    entries: &mut [u32],
) -> TillAppended
    ensures { TillIndexed (appending_of (till_page page default_byte default_unit classes.now singles.now pairs.now index.now blocks.now) journal.now former entries.old) result entries.new }
{
    capi_products::index::till_append_index(
        page,
        default_byte,
        default_unit,
        classes,
        singles,
        pairs,
        index,
        blocks,
        journal,
        former,
        entries,
    )
}

// Finds code n of a journal, from 0, by its index.
#[unsafe(no_mangle)]
pub extern "C" fn till_find_code(
    page: u16,
    default_byte: u8,
    default_unit: u16,
    classes: &[u8],
    singles: &[u16],
    pairs: &[u16],
    index: &[u8],
    blocks: &[u16],
    journal: &[u8],
    entries: &[u32],
    n: u64,
) -> TillFound
    ensures { result ≡ found_out (finding_of (till_page page default_byte default_unit classes.now singles.now pairs.now index.now blocks.now) journal.now entries.now n) }
{
    capi_products::index::till_find_code(
        page,
        default_byte,
        default_unit,
        classes,
        singles,
        pairs,
        index,
        blocks,
        journal,
        entries,
        n,
    )
}

// The standard spelling of a text, at the front of the output.
#[unsafe(no_mangle)]
pub extern "C" fn till_spell(
    page: u16,
    default_byte: u8,
    default_unit: u16,
    classes: &[u8],
    singles: &[u16],
    pairs: &[u16],
    index: &[u8],
    blocks: &[u16],
    text: &[u8],
    out: &mut [u8],
) -> TillSpelled
    ensures { TillSpelledAs (spelling_of (till_page page default_byte default_unit classes.now singles.now pairs.now index.now blocks.now) text.now (length out.old)) result out.old out.new }
{
    capi_products::names::till_spell(
        page,
        default_byte,
        default_unit,
        classes,
        singles,
        pairs,
        index,
        blocks,
        text,
        out,
    )
}

// Encodes the units that the buffer holds, two bytes each, low byte first; the result stands at its front.
#[unsafe(no_mangle)]
pub extern "C" fn till_encode_in_place(
    single: u8,
    pair: u8,
    invalid: u8,
    page: u16,
    default_byte: u8,
    default_unit: u16,
    classes: &[u8],
    singles: &[u16],
    pairs: &[u16],
    index: &[u8],
    blocks: &[u16],
    buffer: &mut [u8],
) -> TillInPlace
    ensures { TillEncodedAs (in_place_of (digits single pair invalid) (till_page page default_byte default_unit classes.now singles.now pairs.now index.now blocks.now) buffer.old) result buffer.new }
{
    capi_products::buffer::till_encode_in_place(
        single,
        pair,
        invalid,
        page,
        default_byte,
        default_unit,
        classes,
        singles,
        pairs,
        index,
        blocks,
        buffer,
    )
}
