// Reading the words of a line, one after another. A word that is not what it must be is `None`.
ghost use Rattle.std.specs.Prelude.{◌≡◌, ◌+◌, ◌*◌, ◌≤◌, ◌<◌, length, drop, IfSome, MatchOption};
ghost use Rattle.checkpoint.specs.Line.{digit_value, hex_value};
ghost use Rattle.console_script.specs.Words.{first_word, next_at, spelled, limited, answered, plain, number_at, all_hex, digit_at, byte_at, unit_at};

use crate::texts::{Element, Spelled, TEXT_LIMIT};
use convert::{Direction, Pending, Policy, Run};

// The most bytes of a file's name.
const NAME_LIMIT: usize = 4000;

// A line, and the place of its next word: one behind the line's end after the last word.
#[derive(Clone, Copy)]
pub struct Words<'a> {
    pub line: &'a [u8],
    pub at: usize,
}

// The end of the word at a place.
fn word_end(line: &[u8], at: usize) -> usize
    requires { at ≤ length line.now }
    ensures lower_bound { (at ≤ result) × (result ≤ length line.now) }
    ensures value { result ≡ at + length (first_word (drop at line.now)) }
{
    for i in at..line.len() {
        if line[i] == b' ' {
            return i;
        }
    }
    line.len()
}

// A digit's value.
fn digit_value(byte: u8) -> Option<u8>
    ensures { result ≡ answered (digit_value byte) }
{
    match byte {
        b'0'..=b'9' => Some(byte - b'0'),
        _ => None,
    }
}

// A capital hex digit's value.
fn hex_value(byte: u8) -> Option<u8>
    ensures { result ≡ answered (hex_value byte) }
{
    match byte {
        b'A'..=b'F' => Some(byte - b'A' + 10),
        _ => digit_value(byte),
    }
}

// The value of decimal digits, if it is within a limit. A larger one is left at once, so it never wraps.
fn decimal_value(word: &[u8], limit: u64) -> Option<u64>
    ensures value_le_limit { IfSome result (λ value. value ≤ limit) }
    ensures value { result ≡ answered (limited limit (spelled 0 word.now)) }
{
    let mut value: u64 = 0;
    for byte in word {
        let digit = digit_value(*byte)? as u64;
        if limit / 10 < value {
            return None;
        }
        if limit - 10 * value < digit {
            return None;
        }
        value = 10 * value + digit;
    }
    Some(value)
}

// Whether a word is not empty and has no spare zero.
fn is_plain(word: &[u8]) -> bool
    ensures { result ≡ plain word.now }
{
    if word.len() == 0 {
        return false;
    }
    if word[0] == b'0' {
        return word.len() == 1;
    }
    true
}

// Whether a word is capital hex digits.
fn is_hex(word: &[u8]) -> bool
    ensures { result ≡ all_hex word.now }
{
    for byte in word {
        if hex_value(*byte).is_none() {
            return false;
        }
    }
    true
}

// The value of a hex digit; 0 where there is none.
fn nibble(digits: &[u8], at: usize) -> u8
    ensures upper_bound { result < 16 }
    ensures value { result ≡ digit_at digits.now at }
{
    if at < digits.len() {
        return hex_value(digits[at]).unwrap_or(0);
    }
    0
}

// A byte of a run of hex digits.
pub fn byte_of(digits: &[u8], place: usize) -> u8
    ensures { 2 * place + 1 < length digits.now → result ≡ byte_at digits.now place }
{
    if place < digits.len() / 2 {
        return 16 * nibble(digits, 2 * place) + nibble(digits, 2 * place + 1);
    }
    0
}

// A unit of a run of hex digits.
pub fn unit_of(digits: &[u8], place: usize) -> u16
    ensures { 4 * place + 3 < length digits.now → result ≡ unit_at digits.now place }
{
    if place < digits.len() / 4 {
        let high = byte_of(digits, 2 * place);
        let low = byte_of(digits, 2 * place + 1);
        return 256 * (high as u16) + (low as u16);
    }
    0
}

impl<'a> Words<'a> {
    // All words of a line.
    pub fn new(line: &'a [u8]) -> Words<'a>
        ensures { (result.line.now ≡ line.now) × (result.at ≡ 0) }
    {
        Words { line, at: 0 }
    }

    // The next word.
    pub fn word(&mut self) -> Option<&'a [u8]>
        ensures word { MatchOption result (length self.old.line.now < self.old.at) (λ word. (self.old.at ≤ length self.old.line.now) × (word.now ≡ first_word (drop self.old.at self.old.line.now))) }
        ensures part { IfSome result (λ word. length word.now ≤ length self.old.line.now) }
        ensures next { self.new.at ≡ next_at self.old.line.now self.old.at }
        ensures line { self.new.line.now ≡ self.old.line.now }
    {
        let line = self.line;
        let at = self.at;
        if line.len() < at {
            return None;
        }
        let end = word_end(line, at);
        self.at = end + 1;
        Some(&line[at..end])
    }

    // Whether the line ends with the word before.
    pub fn end(self) -> Option<()> {
        if self.at == self.line.len() + 1 {
            Some(())
        } else {
            None
        }
    }

    // A decimal number of at most `limit`.
    pub fn number(&mut self, limit: u64) -> Option<u64>
        ensures value_le_limit { IfSome result (λ number. number ≤ limit) }
        ensures value { result ≡ answered (number_at limit self.old.line.now self.old.at) }
        ensures next { self.new.at ≡ next_at self.old.line.now self.old.at }
        ensures line { self.new.line.now ≡ self.old.line.now }
    {
        let word = self.word()?;
        let number = decimal_value(word, limit)?;
        if !is_plain(word) {
            return None;
        }
        Some(number)
    }

    // FROM and COUNT: a part of a text.
    pub fn piece<'t, T>(&mut self, text: &'t [T]) -> Option<&'t [T]>
        ensures { IfSome result (λ piece. length piece.now ≤ length text.now) }
    {
        let from = self.number(TEXT_LIMIT as u64)? as usize;
        let count = self.number(TEXT_LIMIT as u64)? as usize;
        text.get(from..from + count)
    }

    // `D` or `E`.
    pub fn direction(&mut self) -> Option<Direction> {
        match self.word()? {
            b"D" => Some(Direction::Decoding),
            b"E" => Some(Direction::Encoding),
            _ => None,
        }
    }

    // `more`, or `last`: whether a piece is the last.
    pub fn is_last(&mut self) -> Option<bool> {
        match self.word()? {
            b"more" => Some(false),
            b"last" => Some(true),
            _ => None,
        }
    }

    // `on`, or `over`: whether a run is over.
    pub fn is_over(&mut self) -> Option<bool> {
        match self.word()? {
            b"on" => Some(false),
            b"over" => Some(true),
            _ => None,
        }
    }

    // Three digits in one word. Whether they are a policy that is allowed is for the library to say.
    pub fn policy(&mut self) -> Option<Policy> {
        let [single, pair, invalid] = self.word()? else {
            return None;
        };
        Some(Policy {
            single: digit_value(*single)?,
            pair: digit_value(*pair)?,
            invalid: digit_value(*invalid)?,
        })
    }

    // Hex digits; none for `-`.
    fn digits(&mut self) -> Option<&'a [u8]>
        ensures { IfSome result (λ digits. length digits.now ≤ length self.old.line.now) }
    {
        let word = self.word()?;
        if word == b"-".as_slice() {
            return Some(&word[..0]);
        }
        if word.is_empty() || !is_hex(word) {
            return None;
        }
        Some(word)
    }

    // Bytes or units in hex, at most 66,000.
    pub fn elements<T: Element>(&mut self) -> Option<Spelled<'a>>
        ensures { IfSome result (λ elements. length elements.digits.now ≤ length self.old.line.now) }
    {
        let digits = self.digits()?;
        let count = T::count_of(digits)?;
        if TEXT_LIMIT < count {
            return None;
        }
        Some(Spelled { digits, count })
    }

    // What is pending in a run of a direction, in hex: a byte in decoding, a unit in encoding; or `-`.
    pub fn pending(&mut self, direction: Direction) -> Option<Pending> {
        let digits = self.digits()?;
        match (direction, digits.len()) {
            (_, 0) => Some(Pending::Nothing),
            (Direction::Decoding, 2) => Some(Pending::Byte(byte_of(digits, 0))),
            (Direction::Encoding, 4) => Some(Pending::High(unit_of(digits, 0))),
            _ => None,
        }
    }

    // A file's name: 1 to 4,000 bytes, each printable and no space.
    pub fn name(&mut self) -> Option<&'a [u8]>
        ensures { IfSome result (λ name. length name.now ≤ length self.old.line.now) }
    {
        let word = self.word()?;
        if word.is_empty() || NAME_LIMIT < word.len() {
            return None;
        }
        if !word.iter().all(|byte| matches!(*byte, 0x21..=0x7E)) {
            return None;
        }
        Some(word)
    }

    // The ten words of a run.
    pub fn run(&mut self) -> Option<Run> {
        let direction = self.direction()?;
        let page = self.number(65535)? as u16;
        let policy = Policy {
            single: self.number(255)? as u8,
            pair: self.number(255)? as u8,
            invalid: self.number(255)? as u8,
        };
        Some(Run {
            direction,
            page,
            policy,
            pending: self.pending(direction)?,
            flags: self.number(255)? as u8,
            read: self.number(u64::MAX)?,
            written: self.number(u64::MAX)?,
            ended: self.is_over()?,
        })
    }
}
