// A finding as a line: its place in the journal, its kind in words, its bytes, and what the policy does with it.
use findings::Finding;
use std::fmt;
use std::fmt::Write;
use tillbox_checks::kinds::Kind;

// The bytes of a finding's code in hex: one or two.
#[derive(Clone, Copy)]
pub struct Code(pub Finding);

impl fmt::Display for Code {
    fn fmt<W: fmt::Write>(&self, f: &mut fmt::Formatter<W>) -> fmt::Result {
        let first = self.0.first;
        let second = self.0.second;
        if self.0.size < 2 {
            write!(f, "{first:02X}")
        } else {
            write!(f, "{first:02X} {second:02X}")
        }
    }
}

// A kind in words.
fn kind_name(kind: Kind) -> &'static str {
    match kind {
        Kind::Single => "undefined single",
        Kind::Pair => "undefined pair",
        Kind::Invalid => "invalid code",
    }
}

// What a digit does with a code that begins with a byte; 6 writes F100 and the byte.
fn put_digit<W: Write>(text: &mut W, digit: u8, first: u8) -> fmt::Result {
    match digit {
        0 => text.write_str("stopped here"),
        1 => text.write_str("skipped"),
        2 => text.write_str("replaced by NUL"),
        3 => text.write_str("replaced by ?"),
        4 => text.write_str("replaced by _"),
        5 => text.write_str("replaced by the table's default"),
        _ => write!(text, "replaced by F1{first:02X}"),
    }
}

// The line of a finding of a part that begins at a place of the journal.
pub fn put_line<W: Write>(text: &mut W, start: u64, found: Finding) -> fmt::Result {
    let place = start.saturating_add(found.place as u64);
    let kind = kind_name(Kind::of_flag(found.kind));
    let code = Code(found);
    write!(text, "byte {place}: {kind} {code}, ")?;
    put_digit(text, found.digit, found.first)?;
    text.write_str("\n")
}
