// Counting by runs of codes that have characters: the quick loops of converting, with nothing written.
ghost use Rattle.std.specs.Prelude.{◌≡◌, true, List, ℕ, ◌+◌, ◌*◌, ◌≤◌, ◌<◌, length};
ghost use Rattle.codepage.specs.CodePage.{entry_at, is_single};
ghost use Rattle.codepage.specs.Reading.{decoder};
ghost use Rattle.codepage_lookup.specs.Profile.{PlainPage, NoCodes};
ghost use Rattle.codepage_lookup.specs.Tables.{byte_reader, unit_reader};
ghost use Rattle.engine_fastpath.specs.Counts.{Met};

use crate::runs::Place;
use crate::{mixed, plain, runs};
use codepage_lookup::tables::{ByteTables, LeadTables, UnitTables};
use codepage_lookup::words;

// A run of fewer codes is short.
const FEW: usize = 16;

// Whether a whole text is plain bytes that the page keeps as they are: each is one unit.
pub fn all_plain_bytes(tables: &ByteTables<'_>, text: &[u8]) -> bool
    ensures { result ≡ true → (pairs : List ℕ) → Met (decoder tables.now.classes.now tables.now.singles.now pairs) text.now 0 (length text.now) (length text.now) }
{
    if !plain::bytes_below_80(text) {
        return false;
    }
    tables.keeps_plain()
}

// Whether a whole text is plain units that the page keeps as they are: each is one byte. No unit is over `bound`.
pub fn all_plain_units(tables: &UnitTables<'_>, bound: u16, text: &[u16]) -> bool
    requires { (k : ℕ) → entry_at text.now k ≤ bound }
    ensures { result ≡ true → Met (unit_reader tables.now) text.now 0 (length text.now) (length text.now) }
{
    if 0x80 <= bound {
        return false;
    }
    tables.keeps_plain()
}

// Bytes of a page that has only singles, up to the first without a character: how many.
pub fn met_singles(tables: &ByteTables<'_>, text: &[u8], from: usize) -> usize
    requires { from ≤ length text.now }
    ensures { (classes pairs : List ℕ) → ((byte : ℕ) → byte < 256 → is_single (entry_at classes byte) ≡ true) → Met (decoder classes tables.now.singles.now pairs) text.now from (from + result) result }
{
    let singles = tables.singles;
    let n = text.len() - from;
    for k in 0..n {
        let at = text[from + k] as usize;
        if singles[at] == 0xFFFF {
            return k;
        }
    }
    n
}

// Pairs that have characters, in `n` bytes at most: how many.
fn met_pairs(tables: &LeadTables<'_>, text: &[u8], from: usize, n: usize) -> usize
    requires { from + n ≤ length text.now }
    ensures { (2 * result ≤ n) × Met (byte_reader tables.now.tables) text.now from (from + 2 * result) result }
{
    let most = n / 2;
    for k in 0..most {
        let lead = text[from + 2 * k];
        if !tables.tables.is_lead(lead) {
            return k;
        }
        let unit = tables.pair_unit(lead, text[from + 2 * k + 1]);
        if unit == 0xFFFF {
            return k;
        }
    }
    most
}

// Plain bytes, `n` at most, up to eight at a time, where the page keeps them as they are: how many. Of the last seven none is met.
fn met_plain(plain: bool, text: &[u8], from: usize, n: usize) -> usize
    requires { from + n ≤ length text.now }
    ensures { (result ≤ n) × ((classes singles pairs : List ℕ) → (plain ≡ true → PlainPage classes singles) → Met (decoder classes singles pairs) text.now from (from + result) result) }
{
    if !plain {
        return 0;
    }
    let mut k = 0;
    // Kept: the step is what was found there, so there is no range to go over.
    while 8 <= n - k {
        let count = mixed::plain_count(words::word_at(text, from + k));
        k += count;
        if count < 8 {
            return k;
        }
    }
    k
}

// Bytes alone that have characters, `n` at most: how many.
fn met_alone(tables: &ByteTables<'_>, text: &[u8], from: usize, n: usize) -> usize
    requires { from + n ≤ length text.now }
    ensures { (result ≤ n) × Met (byte_reader tables.now) text.now from (from + result) result }
{
    for k in 0..n {
        let unit = tables.single_unit(text[from + k]);
        if unit == 0xFFFF {
            return k;
        }
    }
    n
}

// Pairs and the plain bytes behind them; if there are none, bytes alone.
fn met_mixed(plain: bool, tables: &LeadTables<'_>, text: &[u8], from: usize, n: usize) -> Place
    requires plain_page { plain ≡ true → PlainPage tables.now.tables.classes.now tables.now.tables.singles.now }
    requires n_in_bounds { from + n ≤ length text.now }
    ensures { Met (byte_reader tables.now.tables) text.now from result.read result.written }
{
    let count = met_pairs(tables, text, from, n);
    let i = from + 2 * count;
    let kept = met_plain(plain, text, i, n - 2 * count);
    if 0 < count + kept {
        return Place {
            read: i + kept,
            written: count + kept,
        };
    }
    let alone = met_alone(&tables.tables, text, from, n);
    Place {
        read: from + alone,
        written: alone,
    }
}

// The first few codes of a run, one after the other, which costs less where runs are short.
fn met_few(tables: &LeadTables<'_>, text: &[u8], from: usize) -> Place
    requires { from ≤ length text.now }
    ensures { Met (byte_reader tables.now.tables) text.now from result.read result.written }
{
    let n = runs::smaller(FEW, (text.len() - from) / 2);
    let mut i = from;
    let mut k = 0;
    while k < n {
        let byte = text[i];
        if tables.tables.is_lead(byte) {
            let unit = tables.pair_unit(byte, text[i + 1]);
            if unit == 0xFFFF {
                return Place {
                    read: i,
                    written: k,
                };
            }
            i += 2;
            k += 1;
        } else {
            let unit = tables.tables.single_unit(byte);
            if unit == 0xFFFF {
                return Place {
                    read: i,
                    written: k,
                };
            }
            i += 1;
            k += 1;
        }
    }
    Place {
        read: i,
        written: k,
    }
}

// The codes of a long run, many at a time.
fn met_long(plain: bool, tables: &LeadTables<'_>, text: &[u8], from: usize) -> Place
    requires plain_page { plain ≡ true → PlainPage tables.now.tables.classes.now tables.now.tables.singles.now }
    requires from_in_bounds { from ≤ length text.now }
    ensures { Met (byte_reader tables.now.tables) text.now from result.read result.written }
{
    let mut i = from;
    let mut w = 0;
    // Kept: the step is what was found there, so there is no range to go over.
    while i < text.len() {
        let place = met_mixed(plain, tables, text, i, text.len() - i);
        if place.read <= i {
            return Place {
                read: i,
                written: w,
            };
        }
        i = place.read;
        w += place.written;
    }
    Place {
        read: i,
        written: w,
    }
}

// Codes of one or two bytes that have characters: where they end, and how many units they write.
pub fn met_codes(plain: bool, tables: &LeadTables<'_>, text: &[u8], from: usize) -> Place
    requires plain_page { plain ≡ true → PlainPage tables.now.tables.classes.now tables.now.tables.singles.now }
    requires from_in_bounds { from ≤ length text.now }
    ensures { Met (byte_reader tables.now.tables) text.now from result.read result.written }
{
    let few = met_few(tables, text, from);
    if few.written < FEW {
        return few;
    }
    let at = few.read;
    let rest = met_long(plain, tables, text, at);
    Place {
        read: rest.read,
        written: few.written + rest.written,
    }
}

// Units whose codes are one byte: how many.
fn met_bytes(tables: &UnitTables<'_>, text: &[u16], from: usize) -> usize
    requires from_in_bounds { (from ≤ length text.now) × NoCodes tables.now.index.now tables.now.blocks.now text.now }
    ensures { Met (unit_reader tables.now) text.now from (from + result) result }
{
    let n = text.len() - from;
    for k in 0..n {
        let code = tables.code_of(text[from + k]);
        if 0x100 <= code {
            return k;
        }
    }
    n
}

// Units that have codes, of one byte or two.
fn met_units(tables: &UnitTables<'_>, text: &[u16], from: usize) -> Place
    requires from_in_bounds { (from ≤ length text.now) × NoCodes tables.now.index.now tables.now.blocks.now text.now }
    ensures { Met (unit_reader tables.now) text.now from result.read result.written }
{
    let mut w = 0;
    for i in from..text.len() {
        let code = tables.code_of(text[i]);
        if code == 0xFFFF {
            return Place {
                read: i,
                written: w,
            };
        }
        w += runs::byte_count(code);
    }
    Place {
        read: text.len(),
        written: w,
    }
}

// Units that have codes: first those of one byte, which ask less. None are met where codes may not be asked.
pub fn met_coded(asked: bool, tables: &UnitTables<'_>, text: &[u16], from: usize) -> Place
    requires from_in_bounds { from ≤ length text.now }
    requires no_codes { asked ≡ true → NoCodes tables.now.index.now tables.now.blocks.now text.now }
    ensures { Met (unit_reader tables.now) text.now from result.read result.written }
{
    if !asked {
        return Place {
            read: from,
            written: 0,
        };
    }
    let count = met_bytes(tables, text, from);
    let units = met_units(tables, text, from + count);
    Place {
        read: units.read,
        written: count + units.written,
    }
}
