// Fields and records as CSV (RFC 4180), in units: a field is quoted where it has to be, a record is closed by a carriage return and
// a line feed. Each call writes the next part of a file at the front of a lent slice: a field with the comma before it and the line
// break behind it, where they are due.
//
//     let size = rfc4180::put_field(begun, field, rfc4180::closes_record(end), out)?;    // None: no room
//
// `put_close` closes a record that the text's end left open.

#![tactic(auto)]

ghost use Rattle.std.specs.Prelude.{◌≡◌, ◌+◌, ◌*◌, ◌≤◌, leb, length};
ghost use Rattle.rfc4180.specs.Csv.{is_special, needs_quotes, escaped, escaped_field};
ghost use Rattle.rfc4180.specs.Records.{closes, break_if, part_text, PutAs};
ghost use Rattle.rfc4180.specs.Steps.{LaidAt, count_if, quotes_in, when, in_quotes, in_order};

use fields::End;

const COMMA: u16 = 0x2C;

const QUOTE: u16 = 0x22;

const CARRIAGE_RETURN: u16 = 0x0D;

const LINE_FEED: u16 = 0x0A;

// Whether a unit puts its field into quotes.
fn is_special(unit: u16) -> bool
    ensures { result ≡ is_special unit }
{
    matches!(unit, COMMA | QUOTE | CARRIAGE_RETURN | LINE_FEED)
}

// Whether a field has to be quoted.
#[tactic(auto, unfolding(crate::specs::Csv::needs_quotes))]
pub fn needs_quotes(field: &[u16]) -> bool
    ensures { result ≡ needs_quotes field.now }
{
    field.iter().any(|unit| is_special(*unit))
}

// How many quotes a field has.
fn quote_count(field: &[u16]) -> usize
    ensures { result ≡ quotes_in field.now }
{
    field.iter().filter(|unit| **unit == QUOTE).count()
}

// How many units stand before and behind a field.
fn around(begun: bool, quotes: bool, closed: bool) -> usize
    ensures { result ≡ count_if begun + 2 * count_if quotes + 2 * count_if closed }
{
    usize::from(begun) + 2 * usize::from(quotes) + 2 * usize::from(closed)
}

// Whether three numbers together are within a fourth.
fn fit(a: usize, b: usize, c: usize, room: usize) -> bool
    ensures { result ≡ leb (a + b + c) room }
{
    if room < a {
        return false;
    }
    if room - a < b {
        return false;
    }
    c <= room - a - b
}

// Lays units at a place, and answers the place behind them.
// Kept: a struct of `out` and `place` would hold a &mut, so each method would promise one thing more, that it keeps that reference.
fn lay(units: &[u16], out: &mut [u16], place: usize) -> usize
    requires { place + length units.now ≤ length out.old }
    ensures { LaidAt out.old out.new place units.now result }
{
    let end = place + units.len();
    out[place..end].copy_from_slice(units);
    end
}

// The same, if the units are wanted.
fn lay_if(wanted: bool, units: &[u16], out: &mut [u16], place: usize) -> usize
    requires { place + length (when wanted units.now) ≤ length out.old }
    ensures { LaidAt out.old out.new place (when wanted units.now) result }
{
    if wanted {
        return lay(units, out, place);
    }
    place
}

// Lays a unit as it stands inside quotes.
fn lay_escaped(unit: u16, out: &mut [u16], place: usize) -> usize
    requires { place + length (escaped unit) ≤ length out.old }
    ensures { LaidAt out.old out.new place (escaped unit) result }
{
    if unit == QUOTE {
        out[place] = QUOTE;
        out[place + 1] = QUOTE;
        return place + 2;
    }
    out[place] = unit;
    place + 1
}

// Lays a field with its quotes doubled.
fn lay_field(field: &[u16], out: &mut [u16], place: usize) -> usize
    requires { place + length (escaped_field field.now) ≤ length out.old }
    ensures { LaidAt out.old out.new place (escaped_field field.now) result }
{
    let mut at = place;
    for unit in field {
        at = lay_escaped(*unit, out, at);
    }
    at
}

// Lays a field, in quotes if it has to be quoted.
fn lay_quoted(quotes: bool, field: &[u16], out: &mut [u16], place: usize) -> usize
    requires { place + length (in_quotes quotes field.now) ≤ length out.old }
    ensures { LaidAt out.old out.new place (in_quotes quotes field.now) result }
{
    let begin = lay_if(quotes, &[QUOTE], out, place);
    let end = lay_field(field, out, begin);
    lay_if(quotes, &[QUOTE], out, end)
}

// Lays a field with all that is before and behind it.
fn lay_part(begun: bool, quotes: bool, closed: bool, field: &[u16], out: &mut [u16]) -> usize
    requires { length (in_order begun quotes closed field.now) ≤ length out.old }
    ensures { LaidAt out.old out.new 0 (in_order begun quotes closed field.now) result }
{
    let begin = lay_if(begun, &[COMMA], out, 0);
    let end = lay_quoted(quotes, field, out, begin);
    lay_if(closed, &[CARRIAGE_RETURN, LINE_FEED], out, end)
}

// Whether a field closes its record.
pub fn closes_record(end: End) -> bool
    ensures { result ≡ closes end }
{
    match end {
        End::Bar => false,
        End::LineFeed => true,
        End::Text => true,
    }
}

// Writes the next field of a file: a comma first, if its record is begun; a line break behind it, if it closes its record.
pub fn put_field(begun: bool, field: &[u16], closed: bool, out: &mut [u16]) -> Option<usize>
    ensures { PutAs (part_text begun field.now closed) result out.old out.new }
{
    let quotes = needs_quotes(field);
    let count = quote_count(field);
    let more = around(begun, quotes, closed);
    if !fit(field.len(), count, more, out.len()) {
        return None;
    }
    Some(lay_part(begun, quotes, closed, field, out))
}

// Closes a record that is begun, at the end of the text.
pub fn put_close(begun: bool, out: &mut [u16]) -> Option<usize>
    ensures { PutAs (break_if begun) result out.old out.new }
{
    if out.len() < 2 * usize::from(begun) {
        return None;
    }
    Some(lay_if(begun, &[CARRIAGE_RETURN, LINE_FEED], out, 0))
}
