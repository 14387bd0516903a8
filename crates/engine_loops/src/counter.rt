// The loops of counting: as the loops of converting, with room that never ends and nothing written. They go by the same quick runs.
ghost use Rattle.std.specs.Prelude.{◌≡◌, true, false, ℕ, ◌+◌, ◌≤◌, ◌<◌, ◌^◌, length};
ghost use Rattle.std.proofs.Math.Option.{none};
ghost use Rattle.codepage.specs.CodePage.{pick, entry_at};
ghost use Rattle.codepage_lookup.specs.Profile.{PlainPage, NoCodes};
ghost use Rattle.codepage_lookup.specs.Tables.{OnlySingles};
ghost use Rattle.engine.specs.Engine.{endless, feed_from};
ghost use Rattle.engine.specs.Steps.{does_alone, unit_effect, byte_effect, stopped_by, taken_by, summary};
ghost use Rattle.engine.specs.Converters.{by_bytes, by_leads, by_units};
ghost use Rattle.engine_loops.specs.Turns.{steps_left};
ghost use Rattle.engine_loops.specs.Counts.{Came, Counting, CountTurn};

use crate::turns;
use crate::turns::Turn;
use engine::converters::{ByteConverter, LeadConverter, UnitConverter};
use engine::policies::CodeEffect;
use engine::progress;
use engine::progress::Progress;
use engine_fastpath::{counted, plain};

// How many units a code writes, 0 or 1.
fn units_written(d: CodeEffect) -> usize
    ensures { result ≡ length (unit_effect d).writes }
{
    if d.count == 0 {
        return 0;
    }
    1
}

// How many bytes a code writes, 0 to 2.
fn bytes_written(d: CodeEffect) -> usize
    ensures { result ≡ length (byte_effect d).writes }
{
    if d.count == 0 {
        return 0;
    }
    if d.count == 1 {
        return 1;
    }
    2
}

// A code of `size` units that writes `count`: it stops, or is counted.
fn count_code(d: CodeEffect, size: usize, count: usize, s: Progress) -> Progress
    requires { (s.used + size < 2 ^ 64) × (s.written + count < 2 ^ 64) }
    ensures { result ≡ pick d.stops (stopped_by d.flag size s) (taken_by d.flag size s count) }
{
    if d.stops {
        return progress::stopped(d, size, s);
    }
    progress::taken(d, size, s, count)
}

// ---- decoding

// Counts a byte that is a code by itself.
fn alone_decoded(v: &ByteConverter<'_>, byte: u8, s: Progress) -> Progress
    requires { (s.used + 1 < 2 ^ 64) × (s.written + 2 < 2 ^ 64) }
    ensures { Came (does_alone (by_bytes v.now) byte) 1 s result }
{
    let d = v.alone(byte);
    count_code(d, 1, units_written(d), s)
}

// Settles the lead byte that waits, by the byte behind it.
fn settle_decoded(v: &LeadConverter<'_>, text: &[u8], t: Turn) -> Turn
    requires { Counting (by_leads v.now) text.now t × (t.at < length text.now) × (t.waits ≡ true) }
    ensures { CountTurn (by_leads v.now) text.now t result × (steps_left text.now result < steps_left text.now t) }
{
    let at = t.at;
    let s = t.progress;
    let lead = t.first as u8;
    let byte = text[at];
    let code = v.settled(lead, byte);
    let d = code.effect;
    let counted = count_code(d, 1 + code.more, units_written(d), s);
    turns::past(t, code.more, counted)
}

// The code at a place, if the text goes on. A lead byte is settled at once; at the text's end it waits.
fn next_decoded(v: &LeadConverter<'_>, text: &[u8], t: Turn) -> Turn
    requires { Counting (by_leads v.now) text.now t × (t.waits ≡ false) }
    ensures { CountTurn (by_leads v.now) text.now t result × (t.at < length text.now → steps_left text.now result < steps_left text.now t) }
{
    let at = t.at;
    if text.len() <= at {
        return t;
    }
    let byte = text[at];
    if !v.tables.tables.is_lead(byte) {
        let s = t.progress;
        let counted = alone_decoded(&v.bytes(), byte, s);
        return turns::past(t, 1, counted);
    }
    let pending = turns::wait(t, byte as u16);
    if text.len() <= pending.at {
        return pending;
    }
    settle_decoded(v, text, pending)
}

// A turn on a page with lead bytes: codes that have characters, and the code behind them.
fn turn_decoded(v: &LeadConverter<'_>, plain: bool, text: &[u8], t: Turn) -> Turn
    requires plain_page { plain ≡ true → PlainPage v.now.tables.tables.classes.now v.now.tables.tables.singles.now }
    requires counting { Counting (by_leads v.now) text.now t × (t.at < length text.now) × (t.waits ≡ false) }
    ensures { CountTurn (by_leads v.now) text.now t result × (steps_left text.now result < steps_left text.now t) }
{
    let at = t.at;
    let s = t.progress;
    let place = counted::met_codes(plain, &v.tables, text, at);
    let next = turns::moved(t, place.read, s.written + place.written);
    next_decoded(v, text, next)
}

// The end of a text: a lead byte that waits is a code by itself.
fn end_decoded(v: &ByteConverter<'_>, text: &[u8], t: Turn) -> Progress
    requires { Counting (by_bytes v.now) text.now t × (length text.now ≤ t.at) }
    ensures { result ≡ summary (feed_from (by_bytes v.now) true endless none text.now) }
{
    let s = t.progress;
    if !t.waits {
        return s;
    }
    alone_decoded(v, t.first as u8, s)
}

// Pages with lead bytes.
fn count_codes(v: &ByteConverter<'_>, text: &[u8]) -> Progress
    ensures { result ≡ summary (feed_from (by_bytes v.now) true endless none text.now) }
{
    let leads = v.with_leads();
    let plain = v.tables.keeps_plain();
    let mut t = turns::start(None);
    // Kept: a turn says how far it went, so there is no range to go over.
    while t.at < text.len() {
        t = turn_decoded(&leads, plain, text, t);
        let s = t.progress;
        if s.answer != 0 {
            return s;
        }
    }
    end_decoded(v, text, t)
}

// A turn on a page that has only singles: those that have characters, and the byte behind them.
fn turn_singles(v: &ByteConverter<'_>, text: &[u8], t: Turn) -> Turn
    requires only_singles { OnlySingles v.now.tables }
    requires counting { Counting (by_bytes v.now) text.now t × (t.at < length text.now) × (t.waits ≡ false) }
    ensures { CountTurn (by_bytes v.now) text.now t result × (steps_left text.now result < steps_left text.now t) × (result.waits ≡ false) }
{
    let at = t.at;
    let s = t.progress;
    let count = counted::met_singles(&v.tables, text, at);
    let next = turns::moved(t, at + count, s.written + count);
    let end = next.at;
    if text.len() <= end {
        return next;
    }
    let after = next.progress;
    let counted = alone_decoded(v, text[end], after);
    turns::past(next, 1, counted)
}

// Pages that have only singles.
fn count_singles(v: &ByteConverter<'_>, text: &[u8]) -> Progress
    requires only_singles { OnlySingles v.now.tables }
    ensures { result ≡ summary (feed_from (by_bytes v.now) true endless none text.now) }
{
    let mut t = turns::start(None);
    // Kept: a turn says how far it went, so there is no range to go over.
    while t.at < text.len() {
        t = turn_singles(v, text, t);
        let s = t.progress;
        if s.answer != 0 {
            return s;
        }
    }
    t.progress
}

// What decoding a whole text would give in numbers, with room for all.
pub fn count_decoded(v: &ByteConverter<'_>, text: &[u8]) -> Progress
    ensures { result ≡ summary (feed_from (by_bytes v.now) true endless none text.now) }
{
    if counted::all_plain_bytes(&v.tables, text) {
        return Progress {
            answer: 0,
            used: text.len(),
            written: text.len(),
            flags: 0,
        };
    }
    if v.tables.only_singles() {
        return count_singles(v, text);
    }
    count_codes(v, text)
}

// ---- encoding

// Counts a unit that is a code by itself.
fn alone_encoded(v: &UnitConverter<'_>, unit: u16, s: Progress) -> Progress
    requires { (s.used + 1 < 2 ^ 64) × (s.written + 2 < 2 ^ 64) }
    ensures { Came (does_alone (by_units v.now) unit) 1 s result }
{
    let d = v.alone(unit);
    count_code(d, 1, bytes_written(d), s)
}

// Settles the high surrogate that waits, by the unit behind it.
fn settle_encoded(v: &UnitConverter<'_>, text: &[u16], t: Turn) -> Turn
    requires { Counting (by_units v.now) text.now t × (t.at < length text.now) × (t.waits ≡ true) }
    ensures { CountTurn (by_units v.now) text.now t result × (steps_left text.now result < steps_left text.now t) }
{
    let at = t.at;
    let s = t.progress;
    let code = v.settled(t.first, text[at]);
    let d = code.effect;
    let counted = count_code(d, 1 + code.more, bytes_written(d), s);
    turns::past(t, code.more, counted)
}

// The code at a place, if the text goes on. A high surrogate is settled at once; at the text's end it waits.
fn next_encoded(v: &UnitConverter<'_>, text: &[u16], t: Turn) -> Turn
    requires { Counting (by_units v.now) text.now t × (t.waits ≡ false) }
    ensures { CountTurn (by_units v.now) text.now t result × (t.at < length text.now → steps_left text.now result < steps_left text.now t) }
{
    let at = t.at;
    if text.len() <= at {
        return t;
    }
    let unit = text[at];
    if !codepage_lookup::is_high(unit) {
        let s = t.progress;
        let counted = alone_encoded(v, unit, s);
        return turns::past(t, 1, counted);
    }
    let pending = turns::wait(t, unit);
    if text.len() <= pending.at {
        return pending;
    }
    settle_encoded(v, text, pending)
}

// A turn of counting bytes: units that have codes, and the code behind them.
fn turn_encoded(v: &UnitConverter<'_>, asked: bool, text: &[u16], t: Turn) -> Turn
    requires counting { Counting (by_units v.now) text.now t × (t.at < length text.now) × (t.waits ≡ false) }
    requires no_codes { asked ≡ true → NoCodes v.now.tables.index.now v.now.tables.blocks.now text.now }
    ensures { CountTurn (by_units v.now) text.now t result × (steps_left text.now result < steps_left text.now t) }
{
    let at = t.at;
    let s = t.progress;
    let place = counted::met_coded(asked, &v.tables, text, at);
    let next = turns::moved(t, place.read, s.written + place.written);
    next_encoded(v, text, next)
}

// The end of a text: a high surrogate that waits is a code by itself.
fn end_encoded(v: &UnitConverter<'_>, text: &[u16], t: Turn) -> Progress
    requires { Counting (by_units v.now) text.now t × (length text.now ≤ t.at) }
    ensures { result ≡ summary (feed_from (by_units v.now) true endless none text.now) }
{
    let s = t.progress;
    if !t.waits {
        return s;
    }
    alone_encoded(v, t.first, s)
}

// Texts that are not all plain. No unit is over `bound`.
fn count_units(v: &UnitConverter<'_>, bound: u16, text: &[u16]) -> Progress
    requires by_index { (k : ℕ) → entry_at text.now k ≤ bound }
    ensures { result ≡ summary (feed_from (by_units v.now) true endless none text.now) }
{
    let asked = v.tables.may_ask(bound, text);
    let mut t = turns::start(None);
    // Kept: a turn says how far it went, so there is no range to go over.
    while t.at < text.len() {
        t = turn_encoded(v, asked, text, t);
        let s = t.progress;
        if s.answer != 0 {
            return s;
        }
    }
    end_encoded(v, text, t)
}

// What encoding a whole text would give in numbers, with room for all.
pub fn count_encoded(v: &UnitConverter<'_>, text: &[u16]) -> Progress
    ensures { result ≡ summary (feed_from (by_units v.now) true endless none text.now) }
{
    let bound = plain::bound_of_units(text);
    if counted::all_plain_units(&v.tables, bound, text) {
        return Progress {
            answer: 0,
            used: text.len(),
            written: text.len(),
            flags: 0,
        };
    }
    count_units(v, bound, text)
}
