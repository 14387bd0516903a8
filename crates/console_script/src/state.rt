// What the console holds.
use crate::texts::Text;
use codepage::{Numbers, Sizes, TableRoom};
use convert::{Direction, Pending, Policy, Run};
use lister::Cursor;
use listing::Progress;

// The table set: its numbers, its tables in memory with room for one element too many, and their sizes. The two texts, the run in hand,
// the field buffer, how many units the state of the fields claims to be held in it, and the entries of the index. The tables that are
// lent for reading a listing, their sizes, what has been read of it, where writing one goes on, and the lent output.
#[derive(Drop)]
pub struct Console<'a> {
    pub numbers: Numbers,
    pub tables: TableRoom<'a>,
    pub sizes: Sizes,
    pub bytes: Text<'a, u8>,
    pub units: Text<'a, u16>,
    pub run: Run,
    pub buffer: Text<'a, u16>,
    pub held: usize,
    pub entries: Text<'a, u32>,
    pub lent: TableRoom<'a>,
    pub lent_sizes: Sizes,
    pub progress: Progress,
    pub cursor: Cursor,
    pub byte_room: Text<'a, u8>,
    pub unit_room: Text<'a, u16>,
}

// The numbers of no table set.
pub fn no_numbers() -> Numbers {
    Numbers {
        page: 0,
        default_byte: 0,
        default_unit: 0,
    }
}

// Empty tables.
pub fn no_sizes() -> Sizes {
    Sizes {
        classes: 0,
        singles: 0,
        pairs: 0,
        index: 0,
        blocks: 0,
    }
}

// A run that breaks the run rules.
pub fn no_run() -> Run {
    Run {
        direction: Direction::Decoding,
        page: 0,
        policy: Policy {
            single: 0,
            pair: 0,
            invalid: 0,
        },
        pending: Pending::Nothing,
        flags: 0,
        read: 0,
        written: 0,
        ended: false,
    }
}
