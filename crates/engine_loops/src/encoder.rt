// The loop of encoding: units to bytes.
ghost use Rattle.std.proofs.Math.Option.{none};
ghost use Rattle.std.specs.Prelude.{◌≡◌, true, false, ℕ, Some, None, ◌+◌, ◌<◌, ◌≤◌, ◌^◌, length};
ghost use Rattle.codepage.specs.CodePage.{entry_at};
ghost use Rattle.codepage.specs.Lent.{over};
ghost use Rattle.codepage.specs.Reading.{is_high};
ghost use Rattle.codepage_lookup.specs.Profile.{NoCodes};
ghost use Rattle.codepage_lookup.specs.Tables.{unit_reader};
ghost use Rattle.engine.specs.Engine.{limit, feed_from};
ghost use Rattle.engine.specs.Steps.{does_alone, summary, Took, Ends, one_if};
ghost use Rattle.engine.specs.Pending.{waiting};
ghost use Rattle.engine.specs.Converters.{by_units};
ghost use Rattle.engine_fastpath.specs.Runs.{Plain};
ghost use Rattle.engine_loops.specs.Turns.{steps_left, Ready, Turned, Advanced, Closed};

use crate::turns;
use crate::turns::Turn;
use codepage_lookup::tables::UnitTables;
use engine::converters::UnitConverter;
use engine::progress;
use engine::progress::Progress;
use engine_fastpath::{plain, runs};

// Takes a unit that is a code by itself.
fn take_alone(v: &UnitConverter<'_>, unit: u16, s: Progress, out: &mut [u8]) -> Progress
    requires written_in_bounds { (s.written ≤ length out.old) × (s.used + 1 < 2 ^ 64) }
    ensures { Took (does_alone (by_units v.now) unit) 1 s out.old result out.new }
{
    let d = v.alone(unit);
    progress::take_bytes(d, 1, s, out)
}

// Settles the high surrogate that waits, by the unit behind it: they are one code, or it is one alone and that unit stays unread.
fn settle(v: &UnitConverter<'_>, piece: &[u16], t: Turn, out: &mut [u8]) -> Turn
    requires ready { Ready piece.now out.old t × (t.at < length piece.now) }
    requires waits_value { (t.waits ≡ true) × (is_high t.first ≡ true) }
    ensures { Advanced (by_units v.now) piece.now out.old t out.new result }
{
    let at = t.at;
    let s = t.progress;
    let code = v.settled(t.first, piece[at]);
    let d = code.effect;
    let taken = progress::take_bytes(d, 1 + code.more, s, out);
    turns::past(t, code.more, taken)
}

// The code at a place, if the piece goes on: a high surrogate waits, any other unit is taken.
fn next_code(v: &UnitConverter<'_>, piece: &[u16], t: Turn, out: &mut [u8]) -> Turn
    requires ready { Ready piece.now out.old t × (t.waits ≡ false) }
    ensures { Turned (by_units v.now) piece.now out.old t out.new result × (t.at < length piece.now → steps_left piece.now result < steps_left piece.now t) }
{
    let at = t.at;
    if piece.len() <= at {
        return t;
    }
    let unit = piece[at];
    if codepage_lookup::is_high(unit) {
        return turns::wait(t, unit);
    }
    let s = t.progress;
    let taken = take_alone(v, unit, s, out);
    turns::past(t, 1, taken)
}

// Units that have codes, and the code behind them.
fn advance(v: &UnitConverter<'_>, asked: bool, piece: &[u16], t: Turn, out: &mut [u8]) -> Turn
    requires ready { Ready piece.now out.old t × (t.at < length piece.now) × (t.waits ≡ false) }
    requires no_codes { asked ≡ true → NoCodes v.now.tables.index.now v.now.tables.blocks.now piece.now }
    ensures { Advanced (by_units v.now) piece.now out.old t out.new result }
{
    let at = t.at;
    let s = t.progress;
    let place = runs::run_of_coded(asked, &v.tables, piece, at, s.written, out);
    let next = turns::moved(t, place.read, place.written);
    next_code(v, piece, next, out)
}

// A turn of encoding.
fn codes_turn(v: &UnitConverter<'_>, asked: bool, piece: &[u16], t: Turn, out: &mut [u8]) -> Turn
    requires ready { Ready piece.now out.old t × (t.at < length piece.now) }
    requires first_value { t.waits ≡ true → is_high t.first ≡ true }
    requires no_codes { asked ≡ true → NoCodes v.now.tables.index.now v.now.tables.blocks.now piece.now }
    ensures { Advanced (by_units v.now) piece.now out.old t out.new result }
{
    if t.waits {
        return settle(v, piece, t, out);
    }
    advance(v, asked, piece, t, out)
}

// The end of a piece. A high surrogate that waits is a code by itself at the end of the text, and else stays pending.
fn at_end(v: &UnitConverter<'_>, t: Turn, last: bool, out: &mut [u8]) -> Progress
    requires answer_value { (t.progress.answer ≡ 0) × (t.progress.written ≤ length out.old) × (t.progress.used + one_if t.waits < 2 ^ 64) }
    ensures { Closed (by_units v.now) last out.old t out.new result }
{
    let s = t.progress;
    if !t.waits {
        return s;
    }
    if last {
        return take_alone(v, t.first, s, out);
    }
    turns::stays_pending(t)
}

// The turns of a call on a piece that was not copied, and its end.
fn encode_codes(
    v: &UnitConverter<'_>,
    pending: Option<u16>,
    bound: u16,
    piece: &[u16],
    last: bool,
    out: &mut [u8],
) -> Progress
    requires high_value { (high : ℕ) → pending ≡ Some high → is_high high ≡ true }
    requires by_index { (k : ℕ) → entry_at piece.now k ≤ bound }
    ensures { Ends (feed_from (by_units v.now) last (limit (length out.old)) (waiting pending) piece.now) out.old out.new result }
{
    let asked = v.tables.may_ask(bound, piece);
    let mut t = turns::start(pending);
    // Kept: a turn says how far it went, so there is no range to go over.
    while t.at < piece.len() {
        t = codes_turn(v, asked, piece, t, out);
        let s = t.progress;
        if s.answer != 0 {
            return s;
        }
    }
    at_end(v, t, last, out)
}

// Whether nothing is pending and the piece is plain and fits; then it is copied.
fn copied_plain(
    tables: &UnitTables<'_>,
    pending: Option<u16>,
    bound: u16,
    piece: &[u16],
    out: &mut [u8],
) -> bool
    requires { (k : ℕ) → entry_at piece.now k ≤ bound }
    ensures { (result ≡ true → pending ≡ None) × Plain (unit_reader tables.now) piece.now out.old result out.new }
{
    if pending.is_some() {
        return false;
    }
    plain::encode_plain(tables, bound, piece, out)
}

// Encodes a piece with the high surrogate that is pending, if one is: a plain piece that fits is copied, any other goes by codes.
pub fn encode_loop(
    v: &UnitConverter<'_>,
    pending: Option<u16>,
    piece: &[u16],
    last: bool,
    out: &mut [u8],
) -> Progress
    requires high_value { (high : ℕ) → pending ≡ Some high → is_high high ≡ true }
    ensures value { result ≡ summary (feed_from (by_units v.now) last (limit (length out.old)) (waiting pending) piece.now) }
    ensures out_after { out.new ≡ over out.old (feed_from (by_units v.now) last (limit (length out.old)) (waiting pending) piece.now).output }
{
    let bound = plain::bound_of_units(piece);
    if copied_plain(&v.tables, pending, bound, piece, out) {
        return Progress {
            answer: 0,
            used: piece.len(),
            written: piece.len(),
            flags: 0,
        };
    }
    encode_codes(v, pending, bound, piece, last, out)
}

// A whole text. With no room nothing will be copied, and its units are not looked at before.
pub fn encode_whole(v: &UnitConverter<'_>, text: &[u16], out: &mut [u8]) -> Progress
    ensures value { result ≡ summary (feed_from (by_units v.now) true (limit (length out.old)) none text.now) }
    ensures out_after { out.new ≡ over out.old (feed_from (by_units v.now) true (limit (length out.old)) none text.now).output }
{
    if out.len() == 0 {
        return encode_codes(v, None, 0xFFFF, text, true, out);
    }
    encode_loop(v, None, text, true, out)
}
