// Text that mixes plain text and codes of two bytes. Eight bytes are read as one word, and up to eight plain ones are copied at
// once.
ghost use Rattle.std.specs.Prelude.{◌≡◌, true, List, ℕ, ◌+◌, ◌-◌, ◌*◌, ◌%◌, ◌≤◌, ◌<◌, length};
ghost use Rattle.codepage.specs.CodePage.{entry_at};
ghost use Rattle.codepage.specs.Reading.{decoder};
ghost use Rattle.codepage_lookup.specs.Profile.{PlainPage, MixedPage};
ghost use Rattle.codepage_lookup.specs.Tables.{byte_reader};
ghost use Rattle.codepage_lookup.specs.Words.{WordAt};
ghost use Rattle.engine_fastpath.specs.Runs.{Ran};
ghost use Rattle.engine_fastpath.specs.Words.{Laid};

use crate::runs;
use crate::runs::Place;
use codepage_lookup::tables::LeadTables;
use codepage_lookup::words;

// The first byte of a word.
fn first_of(word: u64) -> u8
    ensures { result ≡ word % 256 }
{
    (word % 256) as u8
}

// How many bytes of a word stand before its first that is not below 80.
pub fn plain_count(word: u64) -> usize
    ensures { (result ≤ 8) × ((piece : List ℕ) (i : ℕ) → WordAt piece i word → (k : ℕ) → k < result → entry_at piece (i + k) < 0x80) }
{
    let marks = word & 0x8080808080808080;
    (u64::trailing_zeros(marks) / 8) as usize
}

// Copies two bytes.
fn copy_two(piece: &[u8], i: usize, out: &mut [u16], w: usize)
    requires { (i + 2 ≤ length piece.now) × (w + 2 ≤ length out.old) }
    ensures { Laid piece.now i out.old w out.new 2 }
{
    let a = piece[i] as u16;
    let b = piece[i + 1] as u16;
    out[w] = a;
    out[w + 1] = b;
}

// Copies four bytes. All are read before one is written, so that they are copied at once.
fn copy_four(piece: &[u8], i: usize, out: &mut [u16], w: usize)
    requires { (i + 4 ≤ length piece.now) × (w + 4 ≤ length out.old) }
    ensures { Laid piece.now i out.old w out.new 4 }
{
    let a = piece[i] as u16;
    let b = piece[i + 1] as u16;
    let c = piece[i + 2] as u16;
    let d = piece[i + 3] as u16;
    out[w] = a;
    out[w + 1] = b;
    out[w + 2] = c;
    out[w + 3] = d;
}

// Copies the plain bytes that a word begins with, one at least: how many. Its first byte is written by itself; the others are two,
// or two times four that may overlap, so that their number is asked little.
fn take_plain(word: u64, piece: &[u8], i: usize, out: &mut [u16], w: usize) -> usize
    requires { WordAt piece.now i word × (word % 256 < 0x80) × (i + 8 ≤ length piece.now) × (w + 8 ≤ length out.old) }
    ensures { (1 ≤ result) × (result ≤ 8) × Laid piece.now i out.old w out.new result × ((k : ℕ) → k < result → entry_at piece.now (i + k) < 0x80) }
{
    out[w] = first_of(word) as u16;
    let count = plain_count(word);
    if count == 8 {
        copy_four(piece, i, out, w);
        copy_four(piece, i + 4, out, w + 4);
        return 8;
    }
    if 4 <= count {
        copy_four(piece, i, out, w);
        copy_four(piece, i + (count - 4), out, w + (count - 4));
        return count;
    }
    if 2 <= count {
        copy_two(piece, i + (count - 2), out, w + (count - 2));
        return count;
    }
    1
}

// Plain bytes, `n` at most, up to eight at a time: how many were taken. Of the last seven none is.
fn run_of_plain(piece: &[u8], from: usize, at: usize, n: usize, out: &mut [u16]) -> usize
    requires { (from + n ≤ length piece.now) × (at + n ≤ length out.old) }
    ensures { (result ≤ n) × ((classes singles pairs : List ℕ) → PlainPage classes singles → Ran (decoder classes singles pairs) piece.now out.old from at out.new (from + result) (at + result)) }
{
    let mut k = 0;
    // Kept: the step is what was found there, so there is no range to go over.
    while 8 <= n - k {
        let word = words::word_at(piece, from + k);
        if 0x80 <= first_of(word) {
            return k;
        }
        let count = take_plain(word, piece, from + k, out, at + k);
        k += count;
        if count < 8 {
            return k;
        }
    }
    k
}

// Pairs that have characters, in `n` bytes at most: how many were taken.
fn run_of_pairs(
    tables: &LeadTables<'_>,
    piece: &[u8],
    from: usize,
    at: usize,
    n: usize,
    out: &mut [u16],
) -> usize
    requires { (from + n ≤ length piece.now) × (at + n ≤ length out.old) }
    ensures { (2 * result ≤ n) × Ran (byte_reader tables.now.tables) piece.now out.old from at out.new (from + 2 * result) (at + result) }
{
    // A copy, so that what is written can not be taken for a part of it.
    let own = *tables;
    let most = n / 2;
    for k in 0..most {
        let lead = piece[from + 2 * k];
        if !own.tables.is_known_lead(lead) {
            return k;
        }
        let unit = own.pair_unit(lead, piece[from + 2 * k + 1]);
        if unit == 0xFFFF {
            return k;
        }
        out[at + k] = unit;
    }
    most
}

// Pairs and the plain bytes behind them; if there are none, bytes alone.
fn take_mixed(
    tables: &LeadTables<'_>,
    piece: &[u8],
    from: usize,
    at: usize,
    n: usize,
    out: &mut [u16],
) -> Place
    requires mixed_page { MixedPage tables.now.tables.classes.now tables.now.tables.singles.now }
    requires n_in_bounds { (from + n ≤ length piece.now) × (at + n ≤ length out.old) }
    ensures { (result.read ≤ from + n) × (result.written + (from + n - result.read) ≤ at + n) × Ran (byte_reader tables.now.tables) piece.now out.old from at out.new result.read result.written }
{
    let count = run_of_pairs(tables, piece, from, at, n, out);
    let i = from + 2 * count;
    let plain = run_of_plain(piece, i, at + count, n - 2 * count, out);
    if 0 < count + plain {
        return Place {
            read: i + plain,
            written: at + count + plain,
        };
    }
    let bytes = tables.tables;
    let alone = runs::run_of_alone(bytes.singles, piece, from, at, n, out);
    Place {
        read: from + alone,
        written: at + alone,
    }
}

// Codes of one or two bytes on a page whose mixed text goes by these loops.
pub fn run_of_mixed(
    tables: &LeadTables<'_>,
    piece: &[u8],
    from: usize,
    at: usize,
    out: &mut [u16],
) -> Place
    requires mixed_page { MixedPage tables.now.tables.classes.now tables.now.tables.singles.now }
    requires from_in_bounds { (from ≤ length piece.now) × (at ≤ length out.old) }
    ensures { Ran (byte_reader tables.now.tables) piece.now out.old from at out.new result.read result.written }
{
    let end = from + runs::smaller(piece.len() - from, out.len() - at);
    let mut i = from;
    let mut w = at;
    // Kept: the step is what was found there, so there is no range to go over.
    while i < end {
        let place = take_mixed(tables, piece, i, w, end - i, out);
        if place.read <= i {
            return place;
        }
        i = place.read;
        w = place.written;
    }
    Place {
        read: i,
        written: w,
    }
}

// Codes that have characters, as many as come one after the other and fit. Where the run before was long, and the page allows it, by
// the loops for mixed text; else code by code, which costs less where runs are short.
pub fn run_of(
    long: bool,
    tables: &LeadTables<'_>,
    piece: &[u8],
    from: usize,
    at: usize,
    out: &mut [u16],
) -> Place
    requires mixed_page { long ≡ true → MixedPage tables.now.tables.classes.now tables.now.tables.singles.now }
    requires from_in_bounds { (from ≤ length piece.now) × (at ≤ length out.old) }
    ensures { Ran (byte_reader tables.now.tables) piece.now out.old from at out.new result.read result.written }
{
    if long {
        return run_of_mixed(tables, piece, from, at, out);
    }
    runs::run_of_codes(tables, piece, from, at, out)
}
