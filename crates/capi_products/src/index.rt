// The calls on the index of a journal (CR 11).
ghost use Rattle.std.specs.Prelude.{◌≡◌};
ghost use Rattle.charindex.specs.Calls.{appending_of, finding_of};
ghost use Rattle.capi.specs.Interface.{till_page};
ghost use Rattle.capi_products.specs.Index.{appended_out, found_out, TillIndexed};

use charindex::{Found, Refusal};

// What appending answers. number: 0, or that of the refusal. count: the entries that the index then has for the journal.
#[repr(C)]
#[derive(Clone, Copy)]
pub struct TillAppended {
    pub count: usize,
    pub number: u8,
}

// What finding answers. number: 0, or that of the refusal. The place of the code, and its length: 1 or 2.
#[repr(C)]
#[derive(Clone, Copy)]
pub struct TillFound {
    pub place: usize,
    pub length: usize,
    pub number: u8,
}

impl From<Result<usize, Refusal>> for TillAppended {
    ghost from_gives = { λ appended r. r ≡ appended_out appended };

    // Appending's answer as numbers.
    fn from(appended: Result<usize, Refusal>) -> TillAppended {
        match appended {
            Ok(count) => TillAppended { count, number: 0 },
            Err(why) => TillAppended {
                count: 0,
                number: why.number(),
            },
        }
    }
}

impl From<Result<Found, Refusal>> for TillFound {
    ghost from_gives = { λ found r. r ≡ found_out found };

    // Finding's answer as numbers.
    fn from(answer: Result<Found, Refusal>) -> TillFound {
        match answer {
            Ok(found) => TillFound {
                place: found.place,
                length: found.length,
                number: 0,
            },
            Err(why) => TillFound {
                place: 0,
                length: 0,
                number: why.number(),
            },
        }
    }
}

// Extends the index of a journal that had `former` bytes.
pub fn till_append_index(
    page: u16,
    default_byte: u8,
    default_unit: u16,
    classes: &[u8],
    singles: &[u16],
    pairs: &[u16],
    index: &[u8],
    blocks: &[u16],
    journal: &[u8],
    former: usize,
    entries: &mut [u32],
) -> TillAppended
    ensures { TillIndexed (appending_of (till_page page default_byte default_unit classes.now singles.now pairs.now index.now blocks.now) journal.now former entries.old) result entries.new }
{
    let tables = capi::tables::table_set(
        page,
        default_byte,
        default_unit,
        classes,
        singles,
        pairs,
        index,
        blocks,
    );
    let appended = charindex::append(&tables, journal, former, entries);
    TillAppended::from(appended)
}

// Finds code n of a journal, from 0, by its index.
pub fn till_find_code(
    page: u16,
    default_byte: u8,
    default_unit: u16,
    classes: &[u8],
    singles: &[u16],
    pairs: &[u16],
    index: &[u8],
    blocks: &[u16],
    journal: &[u8],
    entries: &[u32],
    n: u64,
) -> TillFound
    ensures { result ≡ found_out (finding_of (till_page page default_byte default_unit classes.now singles.now pairs.now index.now blocks.now) journal.now entries.now n) }
{
    let tables = capi::tables::table_set(
        page,
        default_byte,
        default_unit,
        classes,
        singles,
        pairs,
        index,
        blocks,
    );
    let found = charindex::find(&tables, journal, entries, n);
    TillFound::from(found)
}
