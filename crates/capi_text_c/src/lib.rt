// The exported calls on a whole text: each is the call of the same name of the library `capi_text`, whose clauses it states again.
// include/till.h is the header; tools/build_c.sh writes the archive. It is an archive of its own: with these calls in that of `capi_c`
// the loops would have two callers, and the stack of a run call would be half as large again.

#![tactic(auto)]

ghost use Rattle.std.specs.Prelude.{length};
ghost use Rattle.capi.specs.Interface.{till_page};
ghost use Rattle.capi_text.specs.Texts.{TillConverted};
ghost use Rattle.engine.specs.Policies.{digits};
ghost use Rattle.engine.specs.declared.Direction.TheVariants.{Decoding, Encoding};
ghost use Rattle.oneshot.specs.Texts.{text_of};

use capi_text::TillText;

// Decodes a whole text; with no room it only counts.
#[unsafe(no_mangle)]
pub extern "C" fn till_decode_text(
    single: u8,
    pair: u8,
    invalid: u8,
    page: u16,
    default_byte: u8,
    default_unit: u16,
    classes: &[u8],
    singles: &[u16],
    pairs: &[u16],
    index: &[u8],
    blocks: &[u16],
    text: &[u8],
    out: &mut [u16],
) -> TillText
    ensures { TillConverted (text_of Decoding (digits single pair invalid) (till_page page default_byte default_unit classes.now singles.now pairs.now index.now blocks.now) text.now (length out.old)) result out.old out.new }
{
    capi_text::till_decode_text(
        single,
        pair,
        invalid,
        page,
        default_byte,
        default_unit,
        classes,
        singles,
        pairs,
        index,
        blocks,
        text,
        out,
    )
}

// Encodes a whole text; with no room it only counts.
#[unsafe(no_mangle)]
pub extern "C" fn till_encode_text(
    single: u8,
    pair: u8,
    invalid: u8,
    page: u16,
    default_byte: u8,
    default_unit: u16,
    classes: &[u8],
    singles: &[u16],
    pairs: &[u16],
    index: &[u8],
    blocks: &[u16],
    text: &[u16],
    out: &mut [u8],
) -> TillText
    ensures { TillConverted (text_of Encoding (digits single pair invalid) (till_page page default_byte default_unit classes.now singles.now pairs.now index.now blocks.now) text.now (length out.old)) result out.old out.new }
{
    capi_text::till_encode_text(
        single,
        pair,
        invalid,
        page,
        default_byte,
        default_unit,
        classes,
        singles,
        pairs,
        index,
        blocks,
        text,
        out,
    )
}
