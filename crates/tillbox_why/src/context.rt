// The line of the journal around a finding, for whoever reads a screen, with the finding's bytes in brackets. At most 64 bytes before it and
// behind it are shown; three points stand where the line is cut.
use crate::line::Code;
use crate::parts::{behind_feed, code_from};
use crate::state::end_of;
use codepage::TableSet;
use convert::{Direction, Policy, Run};
use findings::Finding;
use std::fmt;
use std::fmt::Write;
use std::ops::Range;
use tillbox_layout::front_len;

// The most bytes before a finding that are shown, and behind it.
const SHOWN: usize = 64;

// Where the bytes begin that are shown before a place: behind the line feed before it. `mark` is a place where a code begins.
fn shown_from(classes: &[u8], part: &[u8], mark: usize, place: usize) -> usize {
    let end = front_len(place, part);
    let from = end.saturating_sub(SHOWN);
    let feed = behind_feed(&part[from..end]);
    let start = code_from(classes, part, mark, from + feed);
    front_len(start, &part[..end])
}

// Where the bytes end that are shown behind a place where a code begins: before the next line feed.
fn shown_to(classes: &[u8], part: &[u8], place: usize) -> usize {
    let from = front_len(place, part);
    let room = front_len(SHOWN, &part[from..]);
    let shown = &part[from..from + room];
    let feed = shown.iter().position(|byte| *byte == b'\n');
    code_from(
        classes,
        part,
        from,
        from.saturating_add(feed.unwrap_or(room)),
    )
}

// What of a part is shown around a finding: from where, and up to where.
pub fn shown_around(classes: &[u8], part: &[u8], mark: usize, found: Finding) -> Range<usize> {
    let start = shown_from(classes, part, mark, found.place);
    let end = shown_to(classes, part, end_of(found));
    start..end
}

// The character that stands for a unit: the replacement character for one that can not be shown alone, as NUL, which stands for a code
// without a character, or a surrogate; a point for a control character, which could move what a screen shows.
fn shown(unit: u16) -> char {
    match char::from_u32(unit as u32) {
        None | Some('\0') => char::REPLACEMENT_CHARACTER,
        Some(character) => {
            if character.is_control() {
                '.'
            } else {
                character
            }
        }
    }
}

// Some codes in characters; NUL stands for every code without one.
fn put_codes<W: Write>(text: &mut W, tables: &TableSet, codes: &[u8]) -> fmt::Result {
    let showing = Policy {
        single: 2,
        pair: 2,
        invalid: 2,
    };
    let Ok(run) = Run::start(Direction::Decoding, tables.numbers.page, showing) else {
        return Ok(());
    };
    let mut units = [0u16; 256];
    let outcome = convert::decode(run, tables, codes, true, &mut units);
    let count = front_len(outcome.written, &units);
    for unit in &units[..count] {
        text.write_char(shown(*unit))?;
    }
    Ok(())
}

// The codes of a part from a place to another one.
fn put_between<W: Write>(
    text: &mut W,
    tables: &TableSet,
    part: &[u8],
    from: usize,
    to: usize,
) -> fmt::Result {
    let end = front_len(to, part);
    let start = front_len(from, &part[..end]);
    put_codes(text, tables, &part[start..end])
}

// Three points where the line goes on: the byte at a place of a part, if it is one, is there and no line feed.
fn put_points<W: Write>(text: &mut W, part: &[u8], place: Option<usize>) -> fmt::Result {
    let byte = place.and_then(|at| part.get(at).copied());
    if byte.is_some_and(|there| there != b'\n') {
        return text.write_str("...");
    }
    Ok(())
}

// The line around a finding.
pub fn put_context<W: Write>(
    text: &mut W,
    tables: &TableSet,
    part: &[u8],
    shown: &Range<usize>,
    found: Finding,
) -> fmt::Result {
    text.write_str("    ")?;
    put_points(text, part, shown.start.checked_sub(1))?;
    put_between(text, tables, part, shown.start, found.place)?;
    let code = Code(found);
    write!(text, "[{code}]")?;
    put_between(text, tables, part, end_of(found), shown.end)?;
    put_points(text, part, Some(shown.end))?;
    text.write_str("\n")
}
