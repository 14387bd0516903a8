// The record of a line. These are no public calls.
ghost use Rattle.std.specs.Prelude.{◌≡◌, ℕ, ◌+◌, ◌≤◌, ◌<◌, length};
ghost use Rattle.listing.specs.Form.{is_digit, is_capital, digit, hex_byte_at, hex_unit_at, decimal_at, fits_symbol, has_form, unless_none, small_page, page_of, record_of};

use crate::Record;

// The forms of the lines: `#` stands for a hex digit, `0` for a decimal digit, `1` for the first digit of a number.
const DEFAULTS: [u8; 10] = *b"D\t##\t####\n";

const SINGLE: [u8; 10] = *b"S\t##\t####\n";

const BARE: [u8; 7] = *b"S\t##\t-\n";

const LEAD: [u8; 5] = *b"L\t##\n";

const TRAIL: [u8; 5] = *b"T\t##\n";

const PAIR: [u8; 12] = *b"M\t####\t####\n";

const CODE: [u8; 12] = *b"W\t####\t####\n";

const PAGE_1: [u8; 4] = *b"P\t1\n";

const PAGE_2: [u8; 5] = *b"P\t10\n";

const PAGE_3: [u8; 6] = *b"P\t100\n";

const PAGE_4: [u8; 7] = *b"P\t1000\n";

const PAGE_5: [u8; 8] = *b"P\t10000\n";

// `0` to `9`.
#[tactic(auto, unfolding(crate::specs::Form::is_digit))]
fn is_digit(byte: u8) -> bool
    ensures { result ≡ is_digit byte }
{
    byte.is_ascii_digit()
}

// `A` to `F`.
#[tactic(auto, unfolding(crate::specs::Form::is_capital))]
fn is_capital(byte: u8) -> bool
    ensures { result ≡ is_capital byte }
{
    matches!(byte, b'A'..=b'F')
}

// The value of a digit, or 0.
#[tactic(auto, unfolding(crate::specs::Form::digit, crate::specs::Form::is_digit, crate::specs::Form::is_capital))]
fn digit_of(byte: u8) -> u8
    ensures { (result ≡ digit byte) × (result < 16) }
{
    match byte {
        b'0'..=b'9' => byte - b'0',
        b'A'..=b'F' => byte - b'A' + 10,
        _ => 0,
    }
}

// Whether a byte is what a symbol of a form stands for.
#[tactic(auto, unfolding(crate::specs::Form::fits_symbol))]
fn fits_symbol(symbol: u8, byte: u8) -> bool
    ensures { result ≡ fits_symbol symbol byte }
{
    match symbol {
        b'#' => is_digit(byte) || is_capital(byte),
        b'0' => is_digit(byte),
        b'1' => is_digit(byte) && byte != b'0',
        _ => byte == symbol,
    }
}

// Whether a line has a form.
fn has_form(form: &[u8], line: &[u8]) -> bool
    ensures { result ≡ has_form form.now line.now }
{
    if form.len() != line.len() {
        return false;
    }
    for (i, symbol) in form.iter().enumerate() {
        if !fits_symbol(*symbol, line[i]) {
            return false;
        }
    }
    true
}

// A byte of two digits.
#[tactic(auto, unfolding(crate::specs::Form::hex_byte_at))]
fn byte_at(line: &[u8], at: usize) -> u8
    requires { at + 2 ≤ length line.now }
    ensures { result ≡ hex_byte_at line.now at }
{
    16 * digit_of(line[at]) + digit_of(line[at + 1])
}

// A unit or a code of four digits.
#[tactic(auto, unfolding(crate::specs::Form::hex_unit_at))]
fn unit_at(line: &[u8], at: usize) -> u16
    requires { at + 4 ≤ length line.now }
    ensures { result ≡ hex_unit_at line.now at }
{
    256 * u16::from(byte_at(line, at)) + u16::from(byte_at(line, at + 2))
}

// A record, unless its right side is FFFF.
pub fn unless_none(right: u16, item: Record) -> Record
    ensures { result ≡ unless_none right item }
{
    if right == 0xFFFF {
        return Record::NoRecord;
    }
    item
}

// A page of `count` digits.
fn page_at(line: &[u8], count: usize) -> Record
    requires { (count ≤ 5) × (2 + count ≤ length line.now) }
    ensures { result ≡ small_page (decimal_at count line.now 2) }
{
    let mut page: u32 = 0;
    for i in 0..count {
        page = 10 * page + (digit_of(line[2 + i]) as u32);
    }
    if page <= 65535 {
        return Record::Page(page as u16);
    }
    Record::NoRecord
}

// The record `P` of a line: a page of one to five digits.
fn page_of(line: &[u8]) -> Record
    ensures { result ≡ page_of line.now }
{
    if has_form(&PAGE_1, line) {
        return page_at(line, 1);
    }
    if has_form(&PAGE_2, line) {
        return page_at(line, 2);
    }
    if has_form(&PAGE_3, line) {
        return page_at(line, 3);
    }
    if has_form(&PAGE_4, line) {
        return page_at(line, 4);
    }
    if has_form(&PAGE_5, line) {
        return page_at(line, 5);
    }
    Record::NoRecord
}

// The record of a line.
pub fn record_of(line: &[u8]) -> Record
    ensures { result ≡ record_of line.now }
{
    if has_form(&CODE, line) {
        let code = unit_at(line, 7);
        return unless_none(code, Record::Code(unit_at(line, 2), code));
    }
    if has_form(&PAIR, line) {
        let unit = unit_at(line, 7);
        return unless_none(unit, Record::Pair(unit_at(line, 2), unit));
    }
    if has_form(&SINGLE, line) {
        let unit = unit_at(line, 5);
        return unless_none(unit, Record::Single(byte_at(line, 2), unit));
    }
    if has_form(&BARE, line) {
        return Record::Single(byte_at(line, 2), 0xFFFF);
    }
    if has_form(&TRAIL, line) {
        return Record::Trail(byte_at(line, 2));
    }
    if has_form(&LEAD, line) {
        return Record::Lead(byte_at(line, 2));
    }
    if has_form(&DEFAULTS, line) {
        return Record::Defaults(byte_at(line, 2), unit_at(line, 5));
    }
    page_of(line)
}
