// Runs of codes that have characters: as many as come one after the other and fit, in loops that ask little of each.
ghost use Rattle.std.specs.Prelude.{◌≡◌, true, ◌++◌, ℕ, ◌+◌, ◌*◌, ◌≤◌, ◌<◌, length};
ghost use Rattle.std.proofs.lemmas.List.Edits.{sets};
ghost use Rattle.codepage_lookup.specs.Profile.{NoCodes};
ghost use Rattle.codepage_lookup.specs.Tables.{byte_reader, unit_reader};
ghost use Rattle.codepage.specs.Reading.{bytes_of};
ghost use Rattle.engine_fastpath.specs.Runs.{Ran, SinglesTaken};

use codepage_lookup::tables::{LeadTables, UnitTables};

// A run of fewer units is short.
const FEW: usize = 8;

// How far a run came: in the piece, and in the output.
#[derive(Clone, Copy)]
pub struct Place {
    pub read: usize,
    pub written: usize,
}

// The smaller of two numbers: how far a loop goes before it asks again what is left.
pub fn smaller(a: usize, b: usize) -> usize
    ensures { (result ≤ a) × (result ≤ b) }
{
    if a < b {
        return a;
    }
    b
}

// The next byte alone, if it has a character: how many bytes were taken, 0 or 1.
fn take_one(singles: &[u16], piece: &[u8], i: usize, out: &mut [u16], w: usize) -> usize
    requires { (length singles.now ≡ 256) × (i + 1 ≤ length piece.now) × (w + 1 ≤ length out.old) }
    ensures { (result ≤ 1) × SinglesTaken singles.now piece.now out.old i w out.new result }
{
    let at = piece[i] as usize;
    let unit = singles[at];
    if unit == 0xFFFF {
        return 0;
    }
    out[w] = unit;
    1
}

// The next two bytes: how many were taken.
fn take_two(singles: &[u16], piece: &[u8], i: usize, out: &mut [u16], w: usize) -> usize
    requires { (length singles.now ≡ 256) × (i + 2 ≤ length piece.now) × (w + 2 ≤ length out.old) }
    ensures { (result ≤ 2) × SinglesTaken singles.now piece.now out.old i w out.new result }
{
    let taken = take_one(singles, piece, i, out, w);
    if taken < 1 {
        return taken;
    }
    1 + take_one(singles, piece, i + 1, out, w + 1)
}

// The next four bytes: how many were taken.
fn take_four(singles: &[u16], piece: &[u8], i: usize, out: &mut [u16], w: usize) -> usize
    requires { (length singles.now ≡ 256) × (i + 4 ≤ length piece.now) × (w + 4 ≤ length out.old) }
    ensures { (result ≤ 4) × SinglesTaken singles.now piece.now out.old i w out.new result }
{
    let taken = take_two(singles, piece, i, out, w);
    if taken < 2 {
        return taken;
    }
    2 + take_two(singles, piece, i + 2, out, w + 2)
}

// The next eight bytes: how many were taken.
fn take_eight(singles: &[u16], piece: &[u8], i: usize, out: &mut [u16], w: usize) -> usize
    requires { (length singles.now ≡ 256) × (i + 8 ≤ length piece.now) × (w + 8 ≤ length out.old) }
    ensures { (result ≤ 8) × SinglesTaken singles.now piece.now out.old i w out.new result }
{
    let taken = take_four(singles, piece, i, out, w);
    if taken < 4 {
        return taken;
    }
    4 + take_four(singles, piece, i + 4, out, w + 4)
}

// The next sixteen bytes: how many were taken.
fn take_sixteen(singles: &[u16], piece: &[u8], i: usize, out: &mut [u16], w: usize) -> usize
    requires { (length singles.now ≡ 256) × (i + 16 ≤ length piece.now) × (w + 16 ≤ length out.old) }
    ensures { (result ≤ 16) × SinglesTaken singles.now piece.now out.old i w out.new result }
{
    let taken = take_eight(singles, piece, i, out, w);
    if taken < 8 {
        return taken;
    }
    8 + take_eight(singles, piece, i + 8, out, w + 8)
}

// Bytes alone, `n` at most, one after the other: how many were taken.
fn run_of_few(
    singles: &[u16],
    piece: &[u8],
    from: usize,
    at: usize,
    n: usize,
    out: &mut [u16],
) -> usize
    requires { (length singles.now ≡ 256) × (from + n ≤ length piece.now) × (at + n ≤ length out.old) }
    ensures { (result ≤ n) × SinglesTaken singles.now piece.now out.old from at out.new result }
{
    for k in 0..n {
        let taken = take_one(singles, piece, from + k, out, at + k);
        if taken < 1 {
            return k;
        }
    }
    n
}

// Bytes alone, `n` at most, four in a turn: how many were taken.
pub fn run_of_alone(
    singles: &[u16],
    piece: &[u8],
    from: usize,
    at: usize,
    n: usize,
    out: &mut [u16],
) -> usize
    requires { (length singles.now ≡ 256) × (from + n ≤ length piece.now) × (at + n ≤ length out.old) }
    ensures { (result ≤ n) × SinglesTaken singles.now piece.now out.old from at out.new result }
{
    let mut k = 0;
    while 4 <= n - k {
        let taken = take_four(singles, piece, from + k, out, at + k);
        if taken < 4 {
            return k + taken;
        }
        k += 4;
    }
    k + run_of_few(singles, piece, from + k, at + k, n - k, out)
}

// Bytes of a page that has only singles, sixteen in a turn: how many were taken. So large a turn, with two callers, stays a function
// of its own, whose loop has what it needs in registers.
pub fn run_of_singles(
    singles: &[u16],
    piece: &[u8],
    from: usize,
    at: usize,
    out: &mut [u16],
) -> usize
    requires { (length singles.now ≡ 256) × (from ≤ length piece.now) × (at ≤ length out.old) }
    ensures { SinglesTaken singles.now piece.now out.old from at out.new result }
{
    let n = smaller(piece.len() - from, out.len() - at);
    let mut k = 0;
    while 16 <= n - k {
        let taken = take_sixteen(singles, piece, from + k, out, at + k);
        if taken < 16 {
            return k + taken;
        }
        k += 16;
    }
    k + run_of_few(singles, piece, from + k, at + k, n - k, out)
}

// Codes of one or two bytes. The classes of the two bytes behind a code's first are read before it is told what the code is: where
// that was guessed wrongly, the next code's class is there. Of the last two bytes none is taken.
pub fn run_of_codes(
    tables: &LeadTables<'_>,
    piece: &[u8],
    from: usize,
    at: usize,
    out: &mut [u16],
) -> Place
    requires { (from ≤ length piece.now) × (at ≤ length out.old) }
    ensures { Ran (byte_reader tables.now.tables) piece.now out.old from at out.new result.read result.written }
{
    // A copy, so that what is written can not be taken for a part of it.
    let own = *tables;
    let end = from + smaller(piece.len() - from, out.len() - at);
    let mut i = from;
    let mut w = at;
    if end - i < 3 {
        return Place {
            read: i,
            written: w,
        };
    }
    let bytes = own.tables;
    let mut class = bytes.class_of(piece[i]);
    // Kept: the step is what was found there, so there is no range to go over.
    while 3 <= end - i {
        let byte = piece[i];
        let second = piece[i + 1];
        let next = bytes.class_of(second);
        let after = bytes.class_of(piece[i + 2]);
        if codepage_lookup::known_lead(class) {
            let unit = own.known_pair_unit(next, byte, second);
            if unit == 0xFFFF {
                return Place {
                    read: i,
                    written: w,
                };
            }
            out[w] = unit;
            i += 2;
            w += 1;
            class = after;
        } else {
            let unit = bytes.known_single_unit(class, byte);
            if unit == 0xFFFF {
                return Place {
                    read: i,
                    written: w,
                };
            }
            out[w] = unit;
            i += 1;
            w += 1;
            class = next;
        }
    }
    Place {
        read: i,
        written: w,
    }
}

// The next unit, if its code is one byte: how many units were taken, 0 or 1.
fn one_byte(tables: &UnitTables<'_>, piece: &[u16], i: usize, out: &mut [u8], w: usize) -> usize
    requires i_in_bounds { (i + 1 ≤ length piece.now) × (w + 1 ≤ length out.old) × NoCodes tables.now.index.now tables.now.blocks.now piece.now }
    ensures { (result ≤ 1) × Ran (unit_reader tables.now) piece.now out.old i w out.new (i + result) (w + result) }
{
    let code = tables.code_of(piece[i]);
    if 0x100 <= code {
        return 0;
    }
    out[w] = code as u8;
    1
}

// The next two units: how many were taken.
fn two_bytes(tables: &UnitTables<'_>, piece: &[u16], i: usize, out: &mut [u8], w: usize) -> usize
    requires i_in_bounds { (i + 2 ≤ length piece.now) × (w + 2 ≤ length out.old) × NoCodes tables.now.index.now tables.now.blocks.now piece.now }
    ensures { (result ≤ 2) × Ran (unit_reader tables.now) piece.now out.old i w out.new (i + result) (w + result) }
{
    let taken = one_byte(tables, piece, i, out, w);
    if taken < 1 {
        return taken;
    }
    1 + one_byte(tables, piece, i + 1, out, w + 1)
}

// The next four units: how many were taken.
fn four_bytes(tables: &UnitTables<'_>, piece: &[u16], i: usize, out: &mut [u8], w: usize) -> usize
    requires i_in_bounds { (i + 4 ≤ length piece.now) × (w + 4 ≤ length out.old) × NoCodes tables.now.index.now tables.now.blocks.now piece.now }
    ensures { (result ≤ 4) × Ran (unit_reader tables.now) piece.now out.old i w out.new (i + result) (w + result) }
{
    let taken = two_bytes(tables, piece, i, out, w);
    if taken < 2 {
        return taken;
    }
    2 + two_bytes(tables, piece, i + 2, out, w + 2)
}

// Units whose codes are one byte, four in a turn: how many were taken. Of the last three none is.
fn run_of_bytes(
    tables: &UnitTables<'_>,
    piece: &[u16],
    from: usize,
    at: usize,
    out: &mut [u8],
) -> usize
    requires from_in_bounds { (from ≤ length piece.now) × (at ≤ length out.old) }
    requires no_codes { NoCodes tables.now.index.now tables.now.blocks.now piece.now }
    ensures { Ran (unit_reader tables.now) piece.now out.old from at out.new (from + result) (at + result) }
{
    let n = smaller(piece.len() - from, out.len() - at);
    let mut k = 0;
    while 4 <= n - k {
        let taken = four_bytes(tables, piece, from + k, out, at + k);
        if taken < 4 {
            return k + taken;
        }
        k += 4;
    }
    k
}

// How many bytes a code has.
pub fn byte_count(code: u16) -> usize
    ensures { result ≡ length (bytes_of code) }
{
    if code <= 0xFF {
        return 1;
    }
    2
}

// Writes a code's bytes: how many. Its high half is written first, and where the code is one byte the low half over it: so nothing is
// asked, and the place behind the code stays as it is.
fn lay_code(code: u16, out: &mut [u8], w: usize) -> usize
    requires { w + 2 ≤ length out.old }
    ensures { (result ≡ length (bytes_of code)) × (out.new ≡ sets out.old w (bytes_of code)) }
{
    let count = byte_count(code);
    out[w] = (code / 256) as u8;
    out[w + count - 1] = (code % 256) as u8;
    count
}

// Writes the bytes of two codes: how many.
fn lay_two(a: u16, b: u16, out: &mut [u8], w: usize) -> usize
    requires { w + 4 ≤ length out.old }
    ensures { (result ≡ length (bytes_of a ++ bytes_of b)) × (out.new ≡ sets out.old w (bytes_of a ++ bytes_of b)) }
{
    let count = lay_code(a, out, w);
    count + lay_code(b, out, w + count)
}

// Writes the bytes of four codes: how many.
fn lay_four(a: u16, b: u16, c: u16, d: u16, out: &mut [u8], w: usize) -> usize
    requires { w + 8 ≤ length out.old }
    ensures { (result ≡ length ((bytes_of a ++ bytes_of b) ++ (bytes_of c ++ bytes_of d))) × (out.new ≡ sets out.old w ((bytes_of a ++ bytes_of b) ++ (bytes_of c ++ bytes_of d))) }
{
    let count = lay_two(a, b, out, w);
    count + lay_two(c, d, out, w + count)
}

// Whether none of four entries is none.
fn all_coded(a: u16, b: u16, c: u16, d: u16) -> bool
    ensures { result ≡ true → (a ≡ 0xFFFF → ⊥) × (b ≡ 0xFFFF → ⊥) × (c ≡ 0xFFFF → ⊥) × (d ≡ 0xFFFF → ⊥) }
{
    if a == 0xFFFF {
        return false;
    }
    if b == 0xFFFF {
        return false;
    }
    if c == 0xFFFF {
        return false;
    }
    d != 0xFFFF
}

// Units that have codes, `most` at most, one after the other.
fn run_of_some(
    most: usize,
    tables: &UnitTables<'_>,
    piece: &[u16],
    from: usize,
    at: usize,
    out: &mut [u8],
) -> Place
    requires from_in_bounds { (from ≤ length piece.now) × (at ≤ length out.old) }
    requires no_codes { NoCodes tables.now.index.now tables.now.blocks.now piece.now }
    ensures { Ran (unit_reader tables.now) piece.now out.old from at out.new result.read result.written }
{
    let n = smaller(most, smaller(piece.len() - from, (out.len() - at) / 2));
    let mut w = at;
    for k in 0..n {
        let code = tables.code_of(piece[from + k]);
        if code == 0xFFFF {
            return Place {
                read: from + k,
                written: w,
            };
        }
        w += lay_code(code, out, w);
    }
    Place {
        read: from + n,
        written: w,
    }
}

// Units that have codes, four in a turn: their codes are looked up before one is laid. Where one of the four has none, those before it
// are taken one after the other.
fn run_of_units(
    tables: &UnitTables<'_>,
    piece: &[u16],
    from: usize,
    at: usize,
    out: &mut [u8],
) -> Place
    requires from_in_bounds { (from ≤ length piece.now) × (at ≤ length out.old) }
    requires no_codes { NoCodes tables.now.index.now tables.now.blocks.now piece.now }
    ensures { Ran (unit_reader tables.now) piece.now out.old from at out.new result.read result.written }
{
    let n = smaller(piece.len() - from, (out.len() - at) / 2);
    let mut k = 0;
    let mut w = at;
    while 4 <= n - k {
        let i = from + k;
        let a = tables.code_of(piece[i]);
        let b = tables.code_of(piece[i + 1]);
        let c = tables.code_of(piece[i + 2]);
        let d = tables.code_of(piece[i + 3]);
        if !all_coded(a, b, c, d) {
            break;
        }
        w += lay_four(a, b, c, d, out, w);
        k += 4;
    }
    run_of_some(4, tables, piece, from + k, w, out)
}

// Units that have codes. The first few are taken one after the other, which costs less where runs are short; then, in larger turns,
// those of one byte, which ask less, and those behind them. None are taken where codes may not be asked.
pub fn run_of_coded(
    asked: bool,
    tables: &UnitTables<'_>,
    piece: &[u16],
    from: usize,
    at: usize,
    out: &mut [u8],
) -> Place
    requires from_in_bounds { (from ≤ length piece.now) × (at ≤ length out.old) }
    requires no_codes { asked ≡ true → NoCodes tables.now.index.now tables.now.blocks.now piece.now }
    ensures { Ran (unit_reader tables.now) piece.now out.old from at out.new result.read result.written }
{
    if !asked {
        return Place {
            read: from,
            written: at,
        };
    }
    let few = run_of_some(FEW, tables, piece, from, at, out);
    let i = few.read;
    let w = few.written;
    if i - from < FEW {
        return few;
    }
    let count = run_of_bytes(tables, piece, i, w, out);
    run_of_units(tables, piece, i + count, w + count, out)
}
