// The call that encodes inside the one buffer that holds the units (CR 9).
ghost use Rattle.std.specs.Prelude.{◌≡◌};
ghost use Rattle.engine.specs.Policies.{digits};
ghost use Rattle.inplace.specs.InPlace.{in_place_of};
ghost use Rattle.capi.specs.Interface.{till_page};
ghost use Rattle.capi_products.specs.Buffer.{encoded_out, TillEncodedAs};

use convert::Policy;
use inplace::{Encoded, Refusal};

// What the call answers. number: 0 all read, 3 stopped, or that of the refusal. read: units; written: bytes at the buffer's front.
#[repr(C)]
#[derive(Clone, Copy)]
pub struct TillInPlace {
    pub read: usize,
    pub written: usize,
    pub number: u8,
    pub flags: u8,
}

impl From<Result<Encoded, Refusal>> for TillInPlace {
    ghost from_gives = { λ encoded r. r ≡ encoded_out encoded };

    // The answer as numbers.
    fn from(answer: Result<Encoded, Refusal>) -> TillInPlace {
        match answer {
            Ok(encoded) => TillInPlace {
                read: encoded.read,
                written: encoded.written,
                number: encoded.number(),
                flags: encoded.flags,
            },
            Err(why) => TillInPlace {
                read: 0,
                written: 0,
                number: why.number(),
                flags: 0,
            },
        }
    }
}

// Encodes the units that the buffer holds, two bytes each, low byte first; the result stands at its front.
pub fn till_encode_in_place(
    single: u8,
    pair: u8,
    invalid: u8,
    page: u16,
    default_byte: u8,
    default_unit: u16,
    classes: &[u8],
    singles: &[u16],
    pairs: &[u16],
    index: &[u8],
    blocks: &[u16],
    buffer: &mut [u8],
) -> TillInPlace
    ensures { TillEncodedAs (in_place_of (digits single pair invalid) (till_page page default_byte default_unit classes.now singles.now pairs.now index.now blocks.now) buffer.old) result buffer.new }
{
    let tables = capi::tables::table_set(
        page,
        default_byte,
        default_unit,
        classes,
        singles,
        pairs,
        index,
        blocks,
    );
    let policy = Policy {
        single,
        pair,
        invalid,
    };
    let encoded = inplace::encode_in_place(policy, &tables, buffer);
    TillInPlace::from(encoded)
}
