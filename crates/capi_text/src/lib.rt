// The C interface: the calls on a whole text, which `capi_text_c` exports. include/till.h is its header. They are an archive of their
// own: with them in that of `capi_c` the loops would have two callers, and the stack of a run call would be half as large again.

#![tactic(auto)]

ghost use Rattle.std.specs.Prelude.{◌≡◌, length};
ghost use Rattle.engine.specs.declared.Direction.TheVariants.{Decoding, Encoding};
ghost use Rattle.oneshot.specs.Texts.{text_of};
ghost use Rattle.capi.specs.Interface.{till_page};
ghost use Rattle.engine.specs.Policies.{digits};
ghost use Rattle.capi_text.specs.Texts.{converted_out, TillConverted};

use engine::Policy;
use oneshot::{Converted, TextRefusal};

// What a call answers. number: 0 all read, 2 the need is over the room, 3 stopped, or that of the refusal. need: the units of output
// that all of the text needs; flags: those of all of it. read and written: what was converted into the room.
#[repr(C)]
#[derive(Clone, Copy)]
pub struct TillText {
    pub need: usize,
    pub read: usize,
    pub written: usize,
    pub number: u8,
    pub flags: u8,
}

// The policy of three digits as C hands them over, allowed or not.
fn policy_in(single: u8, pair: u8, invalid: u8) -> Policy
    ensures { result ≡ digits single pair invalid }
{
    Policy {
        single,
        pair,
        invalid,
    }
}

impl From<Result<Converted, TextRefusal>> for TillText {
    ghost from_gives = { λ answer r. r ≡ converted_out answer };

    // The answer of the call on a whole text as C sees it.
    fn from(answer: Result<Converted, TextRefusal>) -> TillText {
        match answer {
            Ok(converted) => {
                let totals = converted.totals;
                let ending = converted.ending;
                let number = ending.number();
                TillText {
                    need: totals.need,
                    read: totals.read,
                    written: totals.written,
                    number,
                    flags: totals.flags,
                }
            }
            Err(why) => {
                let refusal = why.number();
                TillText {
                    need: 0,
                    read: 0,
                    written: 0,
                    number: refusal,
                    flags: 0,
                }
            }
        }
    }
}

// Decodes a whole text; with no room it only counts.
// Kept: the C interface exports both by name.
pub fn till_decode_text(
    single: u8,
    pair: u8,
    invalid: u8,
    page: u16,
    default_byte: u8,
    default_unit: u16,
    classes: &[u8],
    singles: &[u16],
    pairs: &[u16],
    index: &[u8],
    blocks: &[u16],
    text: &[u8],
    out: &mut [u16],
) -> TillText
    ensures { TillConverted (text_of Decoding (digits single pair invalid) (till_page page default_byte default_unit classes.now singles.now pairs.now index.now blocks.now) text.now (length out.old)) result out.old out.new }
{
    let tables = capi::tables::table_set(
        page,
        default_byte,
        default_unit,
        classes,
        singles,
        pairs,
        index,
        blocks,
    );
    let policy = policy_in(single, pair, invalid);
    let answer = oneshot::decode_text(policy, &tables, text, out);
    TillText::from(answer)
}

// Encodes a whole text; with no room it only counts.
// Kept: the C interface exports both by name.
pub fn till_encode_text(
    single: u8,
    pair: u8,
    invalid: u8,
    page: u16,
    default_byte: u8,
    default_unit: u16,
    classes: &[u8],
    singles: &[u16],
    pairs: &[u16],
    index: &[u8],
    blocks: &[u16],
    text: &[u16],
    out: &mut [u8],
) -> TillText
    ensures { TillConverted (text_of Encoding (digits single pair invalid) (till_page page default_byte default_unit classes.now singles.now pairs.now index.now blocks.now) text.now (length out.old)) result out.old out.new }
{
    let tables = capi::tables::table_set(
        page,
        default_byte,
        default_unit,
        classes,
        singles,
        pairs,
        index,
        blocks,
    );
    let policy = policy_in(single, pair, invalid);
    let answer = oneshot::encode_text(policy, &tables, text, out);
    TillText::from(answer)
}
