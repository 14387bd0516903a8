// The calls on breaks of a byte text into lines (CR 12).
ghost use Rattle.std.specs.Prelude.{◌≡◌, length};
ghost use Rattle.linebreak.specs.Calls.{check_of, proposal_of};
ghost use Rattle.capi.specs.Interface.{till_page};
ghost use Rattle.capi_products.specs.Lines.{checked_out, proposed_out, TillProposed};

use linebreak::Refusal;

// What a proposal answers. number: 0, or that of the refusal. count: the breaks that were written to the front of the list.
#[repr(C)]
#[derive(Clone, Copy)]
pub struct TillBreaks {
    pub count: usize,
    pub number: u8,
}

// A check's answer as a number.
// Kept: no From, since u8 and Result are both std's.
fn checked_out(checked: Result<(), Refusal>) -> u8
    ensures { result ≡ checked_out checked }
{
    match checked {
        Ok(()) => 0,
        Err(why) => why.number(),
    }
}

impl From<Result<usize, Refusal>> for TillBreaks {
    ghost from_gives = { λ proposed r. r ≡ proposed_out proposed };

    // A proposal's answer as numbers.
    fn from(proposed: Result<usize, Refusal>) -> TillBreaks {
        match proposed {
            Ok(count) => TillBreaks { count, number: 0 },
            Err(why) => TillBreaks {
                count: 0,
                number: why.number(),
            },
        }
    }
}

// Checks breaks of a text into lines of at most `width` bytes: 0, 10, 11 or 30.
pub fn till_check_breaks(
    page: u16,
    default_byte: u8,
    default_unit: u16,
    classes: &[u8],
    singles: &[u16],
    pairs: &[u16],
    index: &[u8],
    blocks: &[u16],
    text: &[u8],
    width: u64,
    breaks: &[u64],
) -> u8
    ensures { result ≡ checked_out (check_of (till_page page default_byte default_unit classes.now singles.now pairs.now index.now blocks.now) text.now width breaks.now) }
{
    let tables = capi::tables::table_set(
        page,
        default_byte,
        default_unit,
        classes,
        singles,
        pairs,
        index,
        blocks,
    );
    let checked = linebreak::check_breaks(&tables, text, width, breaks);
    checked_out(checked)
}

// Proposes breaks of a text into lines of at most `width` bytes.
pub fn till_propose_breaks(
    page: u16,
    default_byte: u8,
    default_unit: u16,
    classes: &[u8],
    singles: &[u16],
    pairs: &[u16],
    index: &[u8],
    blocks: &[u16],
    text: &[u8],
    width: u64,
    out: &mut [u64],
) -> TillBreaks
    ensures { TillProposed (proposal_of (till_page page default_byte default_unit classes.now singles.now pairs.now index.now blocks.now) text.now width (length out.old)) result out.old out.new }
{
    let tables = capi::tables::table_set(
        page,
        default_byte,
        default_unit,
        classes,
        singles,
        pairs,
        index,
        blocks,
    );
    let proposed = linebreak::propose_breaks(&tables, text, width, out);
    TillBreaks::from(proposed)
}
