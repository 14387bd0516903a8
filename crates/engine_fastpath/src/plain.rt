// Text that a page maps to itself: found out for a whole piece, and copied many units at a time.
ghost use Rattle.std.specs.Prelude.{◌≡◌, true, false, List, ℕ, ◌+◌, ◌*◌, ◌≤◌, ◌<◌, length};
ghost use Rattle.codepage.specs.CodePage.{entry_at};
ghost use Rattle.codepage.specs.Reading.{decoder};
ghost use Rattle.codepage_lookup.specs.Tables.{unit_reader};
ghost use Rattle.engine_fastpath.specs.Runs.{EachBelow, Copied, Plain};

use codepage_lookup::tables::{ByteTables, UnitTables};

// The larger of two bytes.
fn larger(a: u8, b: u8) -> u8
    ensures { (a ≤ result) × (b ≤ result) }
{
    if a < b {
        return b;
    }
    a
}

// A number that no byte is over.
fn largest_byte(piece: &[u8]) -> u8
    ensures { (k : ℕ) → k < length piece.now → entry_at piece.now k ≤ result }
{
    let mut most: u8 = 0;
    for i in 0..piece.len() {
        most = larger(most, piece[i]);
    }
    most
}

// A number that no unit is over.
fn largest_unit(piece: &[u16]) -> u16
    ensures { (k : ℕ) → k < length piece.now → entry_at piece.now k ≤ result }
{
    let mut most: u16 = 0;
    for i in 0..piece.len() {
        most = most | piece[i];
    }
    most
}

// Whether every byte is below 80. The first of them are looked at first: text that is not plain mostly shows it there.
pub fn bytes_below_80(piece: &[u8]) -> bool
    ensures { result ≡ true → EachBelow 0x80 piece.now }
{
    if 64 < piece.len() {
        if 0x80 <= largest_byte(&piece[..64]) {
            return false;
        }
    }
    largest_byte(piece) < 0x80
}

// A number that no unit is over; the largest of all where it is not worth finding out. The first of many units are looked at
// first: text that is not plain mostly shows it there.
pub fn bound_of_units(piece: &[u16]) -> u16
    ensures { (k : ℕ) → entry_at piece.now k ≤ result }
{
    if 256 < piece.len() {
        if 0x80 <= largest_unit(&piece[..64]) {
            return 0xFFFF;
        }
    }
    largest_unit(piece)
}

// Copies 64 bytes.
fn widen_block(piece: &[u8], from: usize, out: &mut [u16])
    requires { (from + 64 ≤ length piece.now) × (length piece.now ≤ length out.old) }
    ensures { (before : List ℕ) → Copied piece.now before out.old from → Copied piece.now before out.new (from + 64) }
{
    for i in 0..64 {
        out[from + i] = piece[from + i] as u16;
    }
}

// Copies the bytes, from a place on.
fn widen_rest(piece: &[u8], from: usize, out: &mut [u16])
    requires { (from ≤ length piece.now) × (length piece.now ≤ length out.old) }
    ensures { (before : List ℕ) → Copied piece.now before out.old from → Copied piece.now before out.new (length piece.now) }
{
    for i in from..piece.len() {
        out[i] = piece[i] as u16;
    }
}

// Copies bytes.
fn widen(piece: &[u8], out: &mut [u16])
    requires { length piece.now ≤ length out.old }
    ensures { Copied piece.now out.old out.new (length piece.now) }
{
    let mut i: usize = 0;
    while 64 <= piece.len() - i {
        widen_block(piece, i, out);
        i += 64;
    }
    widen_rest(piece, i, out);
}

// Copies 64 units, which are below 80.
fn narrow_block(piece: &[u16], from: usize, out: &mut [u8])
    requires { (from + 64 ≤ length piece.now) × (length piece.now ≤ length out.old) × EachBelow 0x80 piece.now }
    ensures { (before : List ℕ) → Copied piece.now before out.old from → Copied piece.now before out.new (from + 64) }
{
    for i in 0..64 {
        out[from + i] = piece[from + i] as u8;
    }
}

// Copies the units, which are below 80, from a place on.
fn narrow_rest(piece: &[u16], from: usize, out: &mut [u8])
    requires { (from ≤ length piece.now) × (length piece.now ≤ length out.old) × EachBelow 0x80 piece.now }
    ensures { (before : List ℕ) → Copied piece.now before out.old from → Copied piece.now before out.new (length piece.now) }
{
    for i in from..piece.len() {
        out[i] = piece[i] as u8;
    }
}

// Copies units, which are below 80.
fn narrow(piece: &[u16], out: &mut [u8])
    requires { (length piece.now ≤ length out.old) × EachBelow 0x80 piece.now }
    ensures { Copied piece.now out.old out.new (length piece.now) }
{
    let mut i: usize = 0;
    while 64 <= piece.len() - i {
        narrow_block(piece, i, out);
        i += 64;
    }
    narrow_rest(piece, i, out);
}

// Decodes a piece of plain bytes whole, if it is one and fits.
pub fn decode_plain(tables: &ByteTables<'_>, piece: &[u8], out: &mut [u16]) -> bool
    ensures { (pairs : List ℕ) → Plain (decoder tables.now.classes.now tables.now.singles.now pairs) piece.now out.old result out.new }
{
    if out.len() < piece.len() {
        return false;
    }
    if !bytes_below_80(piece) {
        return false;
    }
    if !tables.keeps_plain() {
        return false;
    }
    widen(piece, out);
    true
}

// Encodes a piece of plain units whole, if it is one and fits. No unit is over `bound`.
pub fn encode_plain(tables: &UnitTables<'_>, bound: u16, piece: &[u16], out: &mut [u8]) -> bool
    requires { (k : ℕ) → entry_at piece.now k ≤ bound }
    ensures { Plain (unit_reader tables.now) piece.now out.old result out.new }
{
    if out.len() < piece.len() {
        return false;
    }
    if 0x80 <= bound {
        return false;
    }
    if !tables.keeps_plain() {
        return false;
    }
    narrow(piece, out);
    true
}
