// Reading a line, field by field. Each function reads at a place of the line, and gives what it found and the place behind it.
ghost use Rattle.std.specs.Prelude.{◌≡◌, ⊤, ℕ, ◌+◌, ◌≤◌, ◌<◌, ◌^◌, length, drop, MatchOption};
ghost use Rattle.checkpoint.specs.Line.{tab, digit_value, hex_value, one, is_byte, letter, number, more_digits, three_digits, hex_pair, hex_pending, pending_field, field, same_bytes, closing};
ghost use Rattle.checkpoint.specs.Places.{read_at, given, found, closed, up_to};

use crate::words;
use convert::{Direction, Pending, Policy};

// What was found, and the place behind it.
#[derive(Clone, Copy)]
pub struct Found<T> {
    pub value: T,
    pub next: usize,
}

// A digit's value.
fn digit_value(byte: u8) -> Option<u8>
    ensures value { given result ≡ digit_value byte }
    ensures upper_bound { MatchOption result ⊤ (λ value. value < 10) }
{
    match byte {
        b'0'..=b'9' => Some(byte - b'0'),
        _ => None,
    }
}

// A capital hex digit's value.
fn hex_value(byte: u8) -> Option<u8>
    ensures value { given result ≡ hex_value byte }
    ensures upper_bound { MatchOption result ⊤ (λ value. value < 16) }
{
    match byte {
        b'A'..=b'F' => Some(byte - b'A' + 10),
        _ => digit_value(byte),
    }
}

// One digit.
fn digit_at(line: &[u8], at: usize) -> Option<Found<u8>>
    ensures value { found line.now result ≡ read_at (one digit_value) line.now at }
    ensures upper_bound { MatchOption result ⊤ (λ f. f.value < 10) }
{
    if line.len() <= at {
        return None;
    }
    let value = digit_value(line[at])?;
    Some(Found {
        value,
        next: at + 1,
    })
}

// One capital hex digit.
fn hex_at(line: &[u8], at: usize) -> Option<Found<u8>>
    ensures value { found line.now result ≡ read_at (one hex_value) line.now at }
    ensures upper_bound { MatchOption result ⊤ (λ f. f.value < 16) }
{
    if line.len() <= at {
        return None;
    }
    let value = hex_value(line[at])?;
    Some(Found {
        value,
        next: at + 1,
    })
}

// A value that was found, if a tab follows it: the place is then behind the tab.
fn tabbed<T: Copy>(line: &[u8], item: Found<T>) -> Option<Found<T>>
    ensures value { found line.now result ≡ read_at (one (is_byte tab item.value)) line.now item.next }
    ensures same { MatchOption result ⊤ (λ f. f.value ≡ item.value) }
{
    if line.len() <= item.next {
        return None;
    }
    if line[item.next] != b'\t' {
        return None;
    }
    Some(Found {
        value: item.value,
        next: item.next + 1,
    })
}

// The letter and its tab.
pub fn letter_at(line: &[u8], at: usize) -> Option<Found<Direction>>
    ensures { found line.now result ≡ read_at (field letter) line.now at }
{
    if line.len() <= at {
        return None;
    }
    let next = at + 1;
    match line[at] {
        b'D' => tabbed(
            line,
            Found {
                value: Direction::Decoding,
                next,
            },
        ),
        b'E' => tabbed(
            line,
            Found {
                value: Direction::Encoding,
                next,
            },
        ),
        _ => None,
    }
}

// The digits that follow those of `first`, if the number is at most `limit`. A number over it is left at once, so the value
// never wraps, however many digits follow.
fn more_digits(line: &[u8], at: usize, first: u64, limit: u64) -> Option<Found<u64>>
    requires { (at ≤ length line.now) × (first ≤ limit) × (limit < 2 ^ 60) }
    ensures value { found line.now result ≡ read_at (up_to limit (more_digits first)) line.now at }
    ensures upper_bound { MatchOption result ⊤ (λ f. f.value ≤ limit) }
{
    let mut value = first;
    for i in at..line.len() {
        let Some(digit) = digit_value(line[i]) else {
            return Some(Found { value, next: i });
        };
        value = 10 * value + u64::from(digit);
        if limit < value {
            return None;
        }
    }
    Some(Found {
        value,
        next: line.len(),
    })
}

// A number of at most `limit` and its tab. A number that begins with 0 is 0.
pub fn number_at(line: &[u8], at: usize, limit: u64) -> Option<Found<u64>>
    requires { (9 ≤ limit) × (limit < 2 ^ 60) }
    ensures value { found line.now result ≡ read_at (field (up_to limit number)) line.now at }
    ensures upper_bound { MatchOption result ⊤ (λ f. f.value ≤ limit) }
{
    if line.len() <= at {
        return None;
    }
    let first = digit_value(line[at])?;
    if first == 0 {
        return tabbed(
            line,
            Found {
                value: 0,
                next: at + 1,
            },
        );
    }
    let whole = more_digits(line, at + 1, u64::from(first), limit)?;
    tabbed(line, whole)
}

// The three digits and their tab.
pub fn digits_at(line: &[u8], at: usize) -> Option<Found<Policy>>
    ensures { found line.now result ≡ read_at (field three_digits) line.now at }
{
    let single = digit_at(line, at)?;
    let pair = digit_at(line, single.next)?;
    let invalid = digit_at(line, pair.next)?;
    let value = Policy {
        single: single.value,
        pair: pair.value,
        invalid: invalid.value,
    };
    tabbed(
        line,
        Found {
            value,
            next: invalid.next,
        },
    )
}

// Two capital hex digits.
fn pair_at(line: &[u8], at: usize) -> Option<Found<u8>>
    ensures { found line.now result ≡ read_at hex_pair line.now at }
{
    let high = hex_at(line, at)?;
    let low = hex_at(line, high.next)?;
    Some(Found {
        value: 16 * high.value + low.value,
        next: low.next,
    })
}

// The pending byte of a `D` line.
fn byte_at(line: &[u8], at: usize) -> Option<Found<Pending>>
    ensures { found line.now result ≡ read_at (hex_pending Direction.Decoding) line.now at }
{
    let byte = pair_at(line, at)?;
    Some(Found {
        value: Pending::Byte(byte.value),
        next: byte.next,
    })
}

// The pending unit of an `E` line, its high half first.
fn unit_at(line: &[u8], at: usize) -> Option<Found<Pending>>
    ensures { found line.now result ≡ read_at (hex_pending Direction.Encoding) line.now at }
{
    let high = pair_at(line, at)?;
    let low = pair_at(line, high.next)?;
    let unit = 256 * (high.value as u16) + (low.value as u16);
    Some(Found {
        value: Pending::High(unit),
        next: low.next,
    })
}

// The pending byte or unit, as a line of its direction has it.
fn hex_pending_at(line: &[u8], at: usize, direction: Direction) -> Option<Found<Pending>>
    ensures { found line.now result ≡ read_at (hex_pending direction) line.now at }
{
    match direction {
        Direction::Decoding => byte_at(line, at),
        Direction::Encoding => unit_at(line, at),
    }
}

// What is pending, or none, and its tab.
pub fn pending_at(line: &[u8], at: usize, direction: Direction) -> Option<Found<Pending>>
    ensures { found line.now result ≡ read_at (field (pending_field direction)) line.now at }
{
    if line.len() <= at {
        return None;
    }
    if line[at] == b'-' {
        return tabbed(
            line,
            Found {
                value: Pending::Nothing,
                next: at + 1,
            },
        );
    }
    let item = hex_pending_at(line, at, direction)?;
    tabbed(line, item)
}

// Whether the rest of the line, from a place on, is `word`.
fn rest_is(line: &[u8], at: usize, word: &[u8]) -> bool
    requires { at ≤ length line.now }
    ensures { result ≡ same_bytes (drop at line.now) word.now }
{
    if line.len() - at != word.len() {
        return false;
    }
    for (i, byte) in word.iter().enumerate() {
        if line[at + i] != *byte {
            return false;
        }
    }
    true
}

// The closing word and the line feed, with nothing behind it: whether the run has ended.
pub fn closing_at(line: &[u8], at: usize) -> Option<bool>
    ensures { closed line.now result ≡ read_at closing line.now at }
{
    if line.len() < at {
        return None;
    }
    if rest_is(line, at, &words::ON) {
        return Some(false);
    }
    if rest_is(line, at, &words::OVER) {
        return Some(true);
    }
    None
}
