// How many codes and characters a table set has.
use codepage::{is_single_class, is_trail_class};

// What a table has in the place of none.
const NO_ENTRY: u16 = 0xFFFF;

// An entry of a table, or none.
fn entry_at(table: &[u16], place: usize) -> Option<u16> {
    table.get(place).copied().filter(|entry| *entry != NO_ENTRY)
}

// How many bytes are a code with a character.
pub fn single_codes(classes: &[u8], singles: &[u16]) -> u64 {
    let codes = classes.iter().zip(singles).take(256);
    codes
        .filter(|(class, entry)| is_single_class(**class) && **entry != NO_ENTRY)
        .count() as u64
}

// How many pairs of bytes are a code with a character.
pub fn pair_codes(classes: &[u8], pairs: &[u16]) -> u64 {
    let is_trail = |byte: usize| classes
        .get(byte)
        .is_some_and(|class| is_trail_class(*class));
    pairs
        .iter()
        .enumerate()
        .filter(|(place, entry)| **entry != NO_ENTRY && is_trail(*place % 256))
        .count() as u64
}

// The code of a unit, or none. A surrogate is no character by itself.
fn code_of(index: &[u8], blocks: &[u16], unit: u16) -> Option<u16> {
    if (0xD800..=0xDFFF).contains(&unit) {
        return None;
    }
    let block = *index.get((unit / 256) as usize)? as usize;
    entry_at(blocks, 256 * block + (unit % 256) as usize)
}

// How many units have a code.
pub fn characters(index: &[u8], blocks: &[u16]) -> u64 {
    (0..=u16::MAX)
        .filter(|unit| code_of(index, blocks, *unit).is_some())
        .count() as u64
}
