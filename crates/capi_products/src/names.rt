// The call for the standard spelling of a byte text (CR 8).
ghost use Rattle.std.specs.Prelude.{◌≡◌, length};
ghost use Rattle.spelling.specs.Calls.{spelling_of};
ghost use Rattle.capi.specs.Interface.{till_page};
ghost use Rattle.capi_products.specs.Spelling.{refused_out, spelled_out, TillSpelledAs};

use spelling::Refusal;

// What the call answers. number: 0, or that of the refusal. written: the bytes of the spelling. place: of 24, that of the first code at
// fault.
#[repr(C)]
#[derive(Clone, Copy)]
pub struct TillSpelled {
    pub written: usize,
    pub place: usize,
    pub number: u8,
}

impl From<Refusal> for TillSpelled {
    ghost from_gives = { λ why r. r ≡ refused_out why };

    // A refusal as numbers.
    fn from(why: Refusal) -> TillSpelled {
        match why {
            Refusal::BadShape => TillSpelled {
                written: 0,
                place: 0,
                number: 10,
            },
            Refusal::TooLong => TillSpelled {
                written: 0,
                place: 0,
                number: 11,
            },
            Refusal::AtFault(place) => TillSpelled {
                written: 0,
                place,
                number: 24,
            },
            Refusal::SpellingTooLong => TillSpelled {
                written: 0,
                place: 0,
                number: 25,
            },
        }
    }
}

impl From<Result<usize, Refusal>> for TillSpelled {
    ghost from_gives = { λ spelled r. r ≡ spelled_out spelled };

    // The answer as numbers.
    fn from(spelled: Result<usize, Refusal>) -> TillSpelled {
        match spelled {
            Ok(written) => TillSpelled {
                written,
                place: 0,
                number: 0,
            },
            Err(why) => TillSpelled::from(why),
        }
    }
}

// The standard spelling of a text, at the front of the output.
pub fn till_spell(
    page: u16,
    default_byte: u8,
    default_unit: u16,
    classes: &[u8],
    singles: &[u16],
    pairs: &[u16],
    index: &[u8],
    blocks: &[u16],
    text: &[u8],
    out: &mut [u8],
) -> TillSpelled
    ensures { TillSpelledAs (spelling_of (till_page page default_byte default_unit classes.now singles.now pairs.now index.now blocks.now) text.now (length out.old)) result out.old out.new }
{
    let tables = capi::tables::table_set(
        page,
        default_byte,
        default_unit,
        classes,
        singles,
        pairs,
        index,
        blocks,
    );
    let spelled = spelling::standard_spelling(&tables, text, out);
    TillSpelled::from(spelled)
}
