// The loop of decoding: bytes to units.
ghost use Rattle.std.specs.Prelude.{◌≡◌, true, false, List, ℕ, Some, None, ◌+◌, ◌<◌, ◌≤◌, ◌^◌, length};
ghost use Rattle.std.proofs.Math.Option.{none};
ghost use Rattle.codepage.specs.Lent.{over};
ghost use Rattle.codepage_lookup.specs.Profile.{MixedPage};
ghost use Rattle.codepage_lookup.specs.Tables.{LeadOf, OnlySingles};
ghost use Rattle.engine.specs.Engine.{Fed, limit, feed_from};
ghost use Rattle.engine.specs.Steps.{does_alone, summary, Took, Ends, one_if};
ghost use Rattle.engine.specs.Pending.{waiting};
ghost use Rattle.engine.specs.Converters.{by_bytes, by_leads};
ghost use Rattle.engine_loops.specs.Ways.{WayFound};
ghost use Rattle.engine_loops.specs.Turns.{first_turn, steps_left, Ready, Turned, Advanced, Settled, Closed, Loop};

use crate::turns;
use crate::turns::Turn;
use codepage_lookup::tables::ByteTables;
use engine::converters::{ByteConverter, LeadConverter};
use engine::progress;
use engine::progress::Progress;
use engine_fastpath::{mixed, plain, runs};

// A run of so many bytes is long.
const LONG: usize = 32;

// Takes a byte that is a code by itself.
fn take_alone(v: &ByteConverter<'_>, byte: u8, s: Progress, out: &mut [u16]) -> Progress
    requires written_in_bounds { (s.written ≤ length out.old) × (s.used + 1 < 2 ^ 64) }
    ensures { Took (does_alone (by_bytes v.now) byte) 1 s out.old result out.new }
{
    let d = v.alone(byte);
    progress::take_units(d, 1, s, out)
}

// A turn on a page that has only singles: a byte, and those behind it that have characters.
fn singles_turn(v: &ByteConverter<'_>, piece: &[u8], t: Turn, out: &mut [u16]) -> Turn
    requires only_singles { OnlySingles v.now.tables }
    requires ready { Ready piece.now out.old t × (t.at < length piece.now) × (t.waits ≡ false) }
    ensures { Advanced (by_bytes v.now) piece.now out.old t out.new result × (result.waits ≡ false) }
{
    let at = t.at;
    let s = t.progress;
    let taken = take_alone(v, piece[at], s, out);
    let next = turns::past(t, 1, taken);
    let after = next.progress;
    if after.answer != 0 {
        return next;
    }
    let from = next.at;
    let tables = v.tables;
    let count = runs::run_of_singles(tables.singles, piece, from, after.written, out);
    turns::moved(next, from + count, after.written + count)
}

// The turns of a call on a page that has only singles, from a place on. Its pairs, and whether the call is the last, are asked nothing:
// they stand in the promise.
fn singles_rest(
    v: &ByteConverter<'_>,
    piece: &[u8],
    from: Turn,
    last: bool,
    out: &mut [u16],
) -> Progress
    requires only_singles { OnlySingles v.now.tables }
    requires ready { Ready piece.now out.old from × (from.waits ≡ false) }
    ensures { (length out.new ≡ length out.old) × ((F : Fed) (before : List ℕ) → Loop (by_bytes v.now) last F before piece.now out.old from → Ends F before out.new result) }
{
    let mut t = from;
    // Kept: a turn says how far it went, so there is no range to go over.
    while t.at < piece.len() {
        t = singles_turn(v, piece, t, out);
        let s = t.progress;
        if s.answer != 0 {
            return s;
        }
    }
    t.progress
}

// Pages that have only singles: a first run, and the turns behind it.
fn decode_singles(v: &ByteConverter<'_>, piece: &[u8], last: bool, out: &mut [u16]) -> Progress
    requires { OnlySingles v.now.tables }
    ensures { Ends (feed_from (by_bytes v.now) last (limit (length out.old)) none piece.now) out.old out.new result }
{
    let start = turns::start(None);
    let tables = v.tables;
    let first = runs::run_of_singles(tables.singles, piece, 0, 0, out);
    let t = turns::moved(start, first, first);
    singles_rest(v, piece, t, last, out)
}

// Settles the lead byte that waits, by the byte behind it: they are one code, or the lead is one alone and that byte stays unread.
fn settle(v: &LeadConverter<'_>, piece: &[u8], t: Turn, out: &mut [u16]) -> Turn
    requires ready { Ready piece.now out.old t × (t.at < length piece.now) }
    requires waits_value { (t.waits ≡ true) × (LeadOf v.now.tables.tables t.first) }
    ensures { Advanced (by_leads v.now) piece.now out.old t out.new result × (result.waits ≡ false) }
{
    let at = t.at;
    let s = t.progress;
    let lead = t.first as u8;
    let code = v.settled(lead, piece[at]);
    let d = code.effect;
    let taken = progress::take_units(d, 1 + code.more, s, out);
    turns::past(t, code.more, taken)
}

// The code at a place, if the piece goes on: a lead byte waits, any other byte is taken.
fn next_code(v: &ByteConverter<'_>, piece: &[u8], t: Turn, out: &mut [u16]) -> Turn
    requires ready { Ready piece.now out.old t × (t.waits ≡ false) }
    ensures { Turned (by_bytes v.now) piece.now out.old t out.new result × (t.at < length piece.now → steps_left piece.now result < steps_left piece.now t) }
{
    let at = t.at;
    if piece.len() <= at {
        return t;
    }
    let byte = piece[at];
    if v.tables.is_lead(byte) {
        return turns::wait(t, byte as u16);
    }
    let s = t.progress;
    let taken = take_alone(v, byte, s, out);
    turns::past(t, 1, taken)
}

// Codes that have characters, and the code behind them.
fn advance(v: &LeadConverter<'_>, long: bool, piece: &[u8], t: Turn, out: &mut [u16]) -> Turn
    requires mixed_page { long ≡ true → MixedPage v.now.tables.tables.classes.now v.now.tables.tables.singles.now }
    requires ready { Ready piece.now out.old t × (t.at < length piece.now) × (t.waits ≡ false) }
    ensures { Advanced (by_leads v.now) piece.now out.old t out.new result }
{
    let at = t.at;
    let s = t.progress;
    let place = mixed::run_of(long, &v.tables, piece, at, s.written, out);
    let next = turns::moved(t, place.read, place.written);
    next_code(&v.bytes(), piece, next, out)
}

// Settles the lead byte that waits, if there is one.
fn settle_first(v: &LeadConverter<'_>, piece: &[u8], t: Turn, out: &mut [u16]) -> Turn
    requires ready { Ready piece.now out.old t × (t.at < length piece.now) }
    requires first_value { t.waits ≡ true → LeadOf v.now.tables.tables t.first }
    ensures { Settled (by_leads v.now) piece.now out.old t out.new result }
{
    if !t.waits {
        return t;
    }
    settle(v, piece, t, out)
}

// A turn on a page with lead bytes: the one that waits, codes that have characters, and the code behind them.
fn codes_turn(v: &LeadConverter<'_>, long: bool, piece: &[u8], t: Turn, out: &mut [u16]) -> Turn
    requires mixed_page { long ≡ true → MixedPage v.now.tables.tables.classes.now v.now.tables.tables.singles.now }
    requires ready { Ready piece.now out.old t × (t.at < length piece.now) }
    requires first_value { t.waits ≡ true → LeadOf v.now.tables.tables t.first }
    ensures { Advanced (by_leads v.now) piece.now out.old t out.new result }
{
    let next = settle_first(v, piece, t, out);
    let s = next.progress;
    if s.answer != 0 {
        return next;
    }
    if piece.len() <= next.at {
        return next;
    }
    advance(v, long, piece, next, out)
}

// The end of a piece. A lead byte that waits is a code by itself at the end of the text, and else stays pending.
fn at_end(v: &ByteConverter<'_>, t: Turn, last: bool, out: &mut [u16]) -> Progress
    requires answer_value { (t.progress.answer ≡ 0) × (t.progress.written ≤ length out.old) × (t.progress.used + one_if t.waits < 2 ^ 64) }
    requires first_bound { t.waits ≡ true → t.first < 256 }
    ensures { Closed (by_bytes v.now) last out.old t out.new result }
{
    let s = t.progress;
    if !t.waits {
        return s;
    }
    if last {
        return take_alone(v, t.first as u8, s, out);
    }
    turns::stays_pending(t)
}

// Whether the run of a turn was long, on a page whose mixed text goes by the quick loops.
fn goes_on(plain: bool, before: usize, after: usize) -> bool
    requires { before ≤ after }
    ensures { result ≡ true → plain ≡ true }
{
    if !plain {
        return false;
    }
    LONG <= after - before
}

// The turns of a call from a place on, and its end.
fn decode_rest(
    v: &LeadConverter<'_>,
    plain: bool,
    piece: &[u8],
    from: Turn,
    last: bool,
    out: &mut [u16],
) -> Progress
    requires mixed_page { plain ≡ true → MixedPage v.now.tables.tables.classes.now v.now.tables.tables.singles.now }
    requires ready { Ready piece.now out.old from × (from.waits ≡ true → LeadOf v.now.tables.tables from.first) }
    ensures { (length out.new ≡ length out.old) × ((F : Fed) (before : List ℕ) → Loop (by_leads v.now) last F before piece.now out.old from → Ends F before out.new result) }
{
    let mut t = from;
    let mut long = plain;
    // Kept: a turn says how far it went, so there is no range to go over.
    while t.at < piece.len() {
        let before = t.at;
        t = codes_turn(v, long, piece, t, out);
        let s = t.progress;
        if s.answer != 0 {
            return s;
        }
        long = goes_on(plain, before, t.at);
    }
    at_end(&v.bytes(), t, last, out)
}

// The turn that a call begins with.
fn first_turn(pending: Option<u8>) -> Turn
    ensures { result ≡ first_turn pending }
{
    match pending {
        Some(lead) => turns::start(Some(lead as u16)),
        None => turns::start(None),
    }
}

// Pages with lead bytes.
fn decode_codes(
    v: &ByteConverter<'_>,
    pending: Option<u8>,
    piece: &[u8],
    last: bool,
    out: &mut [u16],
) -> Progress
    requires { (lead : ℕ) → pending ≡ Some lead → LeadOf v.now.tables lead }
    ensures { Ends (feed_from (by_bytes v.now) last (limit (length out.old)) (waiting pending) piece.now) out.old out.new result }
{
    let start = first_turn(pending);
    let plain = v.tables.is_mixed();
    decode_rest(&v.with_leads(), plain, piece, start, last, out)
}

// How a call goes on.
#[derive(Clone, Copy)]
pub enum Way {
    // Not at all: its piece was plain and is copied.
    Copied,
    // By single bytes: the page has no others.
    Singles,
    // By codes.
    Codes,
}

// Finds out how a call goes on, and copies a plain piece. A page that has pairs has lead bytes.
fn way_of(tables: &ByteTables<'_>, pending: Option<u8>, piece: &[u8], out: &mut [u16]) -> Way
    ensures { WayFound tables.now piece.now pending out.old result out.new }
{
    if pending.is_some() {
        return Way::Codes;
    }
    if plain::decode_plain(tables, piece, out) {
        return Way::Copied;
    }
    if 0 < tables.pairs.len() {
        return Way::Codes;
    }
    if tables.only_singles() {
        return Way::Singles;
    }
    Way::Codes
}

// Decodes a piece with the byte that is pending, if one is: what a call gives, by the quickest way that its page and piece allow.
pub fn decode_loop(
    v: &ByteConverter<'_>,
    pending: Option<u8>,
    piece: &[u8],
    last: bool,
    out: &mut [u16],
) -> Progress
    requires lead_value { (lead : ℕ) → pending ≡ Some lead → LeadOf v.now.tables lead }
    ensures value { result ≡ summary (feed_from (by_bytes v.now) last (limit (length out.old)) (waiting pending) piece.now) }
    ensures out_after { out.new ≡ over out.old (feed_from (by_bytes v.now) last (limit (length out.old)) (waiting pending) piece.now).output }
{
    let way = way_of(&v.tables, pending, piece, out);
    match way {
        Way::Copied => Progress {
            answer: 0,
            used: piece.len(),
            written: piece.len(),
            flags: 0,
        },
        Way::Singles => decode_singles(v, piece, last, out),
        Way::Codes => decode_codes(v, pending, piece, last, out),
    }
}
