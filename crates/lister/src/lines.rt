// The line of a record. Each function writes a whole line at the front of the output.
ghost use Rattle.std.specs.Prelude.{◌≡◌, [], ◌∷◌, ℕ, ◌+◌, ◌≤◌, ◌<◌, length};
ghost use Rattle.codepage.specs.Lent.{over};
ghost use Rattle.lister.specs.Lines.{hex_byte, byte_text, unit_text, decimal_text, page_text, line, line₂, single_text, record_line};

use listing::Record;

// A capital hex digit.
#[tactic(auto, unfolding(crate::specs::Lines::hex_byte))]
fn hex_byte(value: u8) -> u8
    requires { value < 16 }
    ensures { result ≡ hex_byte value }
{
    if value < 10 {
        b'0' + value
    } else {
        b'A' + (value - 10)
    }
}

// A letter and a byte.
fn put_byte(letter: u8, byte: u8, out: &mut [u8])
    requires { 5 ≤ length out.old }
    ensures { out.new ≡ over out.old (line letter (byte_text byte)) }
{
    out[0] = letter;
    out[1] = b'\t';
    out[2] = hex_byte(byte / 16);
    out[3] = hex_byte(byte % 16);
    out[4] = b'\n';
}

// `S`, a byte and `-`.
fn put_bare(byte: u8, out: &mut [u8])
    requires { 7 ≤ length out.old }
    ensures { out.new ≡ over out.old (line₂ 0x53 (byte_text byte) (0x2D ∷ [])) }
{
    out[0] = b'S';
    out[1] = b'\t';
    out[2] = hex_byte(byte / 16);
    out[3] = hex_byte(byte % 16);
    out[4] = b'\t';
    out[5] = b'-';
    out[6] = b'\n';
}

// A letter, a byte and a unit.
fn put_byte_unit(letter: u8, byte: u8, unit: u16, out: &mut [u8])
    requires { 10 ≤ length out.old }
    ensures { out.new ≡ over out.old (line₂ letter (byte_text byte) (unit_text unit)) }
{
    let high = (unit / 256) as u8;
    let low = (unit % 256) as u8;
    out[0] = letter;
    out[1] = b'\t';
    out[2] = hex_byte(byte / 16);
    out[3] = hex_byte(byte % 16);
    out[4] = b'\t';
    out[5] = hex_byte(high / 16);
    out[6] = hex_byte(high % 16);
    out[7] = hex_byte(low / 16);
    out[8] = hex_byte(low % 16);
    out[9] = b'\n';
}

// A letter and two units.
fn put_units(letter: u8, left: u16, right: u16, out: &mut [u8])
    requires { 12 ≤ length out.old }
    ensures { out.new ≡ over out.old (line₂ letter (unit_text left) (unit_text right)) }
{
    let high = (left / 256) as u8;
    let low = (left % 256) as u8;
    out[0] = letter;
    out[1] = b'\t';
    out[2] = hex_byte(high / 16);
    out[3] = hex_byte(high % 16);
    out[4] = hex_byte(low / 16);
    out[5] = hex_byte(low % 16);
    out[6] = b'\t';
    let right_high = (right / 256) as u8;
    let right_low = (right % 256) as u8;
    out[7] = hex_byte(right_high / 16);
    out[8] = hex_byte(right_high % 16);
    out[9] = hex_byte(right_low / 16);
    out[10] = hex_byte(right_low % 16);
    out[11] = b'\n';
}

// How many digits a page has.
#[tactic(auto, unfolding(crate::specs::Lines::page_text))]
fn page_len(page: u16) -> usize
    ensures { (result ≡ length (page_text page)) × (result ≤ 5) }
{
    match page {
        0..=9 => 1,
        10..=99 => 2,
        100..=999 => 3,
        1000..=9999 => 4,
        _ => 5,
    }
}

// `P` and the page.
fn put_page(page: u16, out: &mut [u8])
    requires { length (line 0x50 (page_text page)) ≤ length out.old }
    ensures { out.new ≡ over out.old (line 0x50 (page_text page)) }
{
    let a = page / 10;
    let b = a / 10;
    let c = b / 10;
    let d = c / 10;
    out[0] = b'P';
    out[1] = b'\t';
    if page < 10 {
        out[2] = b'0' + ((page % 10) as u8);
        out[3] = b'\n';
        return;
    }
    if page < 100 {
        out[2] = b'0' + ((a % 10) as u8);
        out[3] = b'0' + ((page % 10) as u8);
        out[4] = b'\n';
        return;
    }
    if page < 1000 {
        out[2] = b'0' + ((b % 10) as u8);
        out[3] = b'0' + ((a % 10) as u8);
        out[4] = b'0' + ((page % 10) as u8);
        out[5] = b'\n';
        return;
    }
    if page < 10000 {
        out[2] = b'0' + ((c % 10) as u8);
        out[3] = b'0' + ((b % 10) as u8);
        out[4] = b'0' + ((a % 10) as u8);
        out[5] = b'0' + ((page % 10) as u8);
        out[6] = b'\n';
        return;
    }
    out[2] = b'0' + ((d % 10) as u8);
    out[3] = b'0' + ((c % 10) as u8);
    out[4] = b'0' + ((b % 10) as u8);
    out[5] = b'0' + ((a % 10) as u8);
    out[6] = b'0' + ((page % 10) as u8);
    out[7] = b'\n';
}

// The length of a record's line.
pub fn line_len(item: Record) -> usize
    ensures { result ≡ length (record_line item) }
{
    match item {
        Record::Page(page) => page_len(page) + 3,
        Record::Defaults(_, _) => 10,
        Record::Single(_, unit) => single_len(unit),
        Record::Lead(_) | Record::Trail(_) => 5,
        Record::Pair(_, _) | Record::Code(_, _) => 12,
        Record::NoRecord => 0,
    }
}

// The length of the line of a single.
#[tactic(auto, unfolding(crate::specs::Lines::single_text))]
fn single_len(unit: u16) -> usize
    ensures { result ≡ 6 + length (single_text unit) }
{
    if unit == 0xFFFF { 7 } else { 10 }
}

// `S`
#[tactic(auto, unfolding(crate::specs::Lines::single_text))]
fn put_single(byte: u8, unit: u16, out: &mut [u8])
    requires { length (line₂ 0x53 (byte_text byte) (single_text unit)) ≤ length out.old }
    ensures { out.new ≡ over out.old (line₂ 0x53 (byte_text byte) (single_text unit)) }
{
    if unit == 0xFFFF {
        put_bare(byte, out);
    } else {
        put_byte_unit(b'S', byte, unit, out);
    }
}

// The line of a record.
pub fn put_line(item: Record, out: &mut [u8])
    requires { length (record_line item) ≤ length out.old }
    ensures { out.new ≡ over out.old (record_line item) }
{
    match item {
        Record::Page(page) => put_page(page, out),
        Record::Defaults(byte, unit) => put_byte_unit(b'D', byte, unit, out),
        Record::Single(byte, unit) => put_single(byte, unit, out),
        Record::Lead(byte) => put_byte(b'L', byte, out),
        Record::Trail(byte) => put_byte(b'T', byte, out),
        Record::Pair(code, unit) => put_units(b'M', code, unit, out),
        Record::Code(unit, code) => put_units(b'W', unit, code, out),
        Record::NoRecord => {}
    }
}
