// One spelling per name: some pages have two codes for one character, so that a name has two spellings. (Document 02, CR 8;
// docs/RULES.md, "Spelling".) The standard spelling of a byte text is the text decoded, and encoded again. Texts that have one mean
// the same units exactly if their spellings are equal bytes.
//
//     let spelled = spelling::standard_spelling(&tables, text, out);
//     // Ok(length): the front of `out`; or Err(why): why.number()
//
// A refused call leaves `out` as it was.

#![tactic(auto)]

ghost use Rattle.std.specs.Prelude.{◌≡◌, true, ◌+◌, ◌≤◌, ◌<◌, length, IfSome};
ghost use Rattle.std.proofs.Math.Option.{none};
ghost use Rattle.std.proofs.lemmas.List.Edits.{sets};
ghost use Rattle.std.proofs.Math.Seq.{paste};
ghost use Rattle.codepage.specs.CodePage.{page_of};
ghost use Rattle.codepage.specs.Lent.{over};
ghost use Rattle.codepage.specs.Reading.{is_surrogate, unit_alone, bytes_of};
ghost use Rattle.codepage_lookup.specs.Tables.{byte_reader};
ghost use Rattle.convert.specs.Runs.{piece_limit};
ghost use Rattle.spelling.specs.Spelling.{is_character, reads_back, unit_spelling, fault_of, bytes_for};
ghost use Rattle.spelling.specs.Calls.{spelling_number, spelling_of, SpelledAs};
ghost use Rattle.spelling.specs.Steps.{option_of, SpelledRead, counted_of, SameSize, SpanSame, Begun};

use codepage::{Lookup, TableSet};
use codepage_lookup::tables::{ByteTables, LeadTables, UnitTables};
use convert::Run;
use engine_fastpath::plain;

// Why a call is refused.
#[derive(Clone, Copy)]
pub enum Refusal {
    // 10: the shape of the tables is not good.
    BadShape,
    // 11: the text is over the limit.
    TooLong,
    // 24: the code at this place is the first at fault: it has no character, or a surrogate, or a character whose own code does not
    // read back as it.
    AtFault(usize),
    // 25: the spelling is over the limit, or does not fit the room.
    SpellingTooLong,
}

impl Refusal {
    // The number that document 02 gives the refusal.
    pub fn number(self) -> u8
        ensures { result ≡ spelling_number self }
    {
        match self {
            Refusal::BadShape => 10,
            Refusal::TooLong => 11,
            Refusal::AtFault(_) => 24,
            Refusal::SpellingTooLong => 25,
        }
    }
}

// The tables of a page whose shape was found good, as a text is spelled by them.
#[derive(Clone, Copy)]
struct Speller<'a> {
    bytes: LeadTables<'a>,
    units: UnitTables<'a>,
}

// A code of the text: how many bytes it has, and the code that spells it, if it is not at fault.
#[derive(Clone, Copy)]
struct SpelledCode {
    size: usize,
    code: Option<u16>,
}

// No code: a table's entry that means none.
const NO_CODE: u16 = 0xFFFF;

// Whether a code means this character.
fn is_character(means: Lookup, unit: u16) -> bool
    ensures { result ≡ is_character unit means }
{
    match means {
        Ok(found) => found == unit,
        Err(_) => false,
    }
}

// How many bytes a code has.
fn byte_count(code: u16) -> usize
    ensures { result ≡ length (bytes_of code) }
{
    if code <= 0xFF {
        return 1;
    }
    2
}

// Whether a unit is a surrogate.
fn is_surrogate(unit: u16) -> bool
    ensures { result ≡ is_surrogate unit }
{
    if unit < 0xD800 {
        return false;
    }
    unit <= 0xDFFF
}

// Writes the bytes of a code: the place behind them.
fn put_code(code: u16, out: &mut [u8], at: usize) -> usize
    requires { at + length (bytes_of code) ≤ length out.old }
    ensures { (result ≡ at + length (bytes_of code)) × (out.new ≡ sets out.old at (bytes_of code)) }
{
    if code <= 0xFF {
        out[at] = code as u8;
        return at + 1;
    }
    out[at] = (code / 256) as u8;
    out[at + 1] = (code % 256) as u8;
    at + 2
}

// Copies bytes into the output at a place: the place behind them.
fn put_bytes(bytes: &[u8], out: &mut [u8], at: usize) -> usize
    requires { at + length bytes.now ≤ length out.old }
    ensures { (result ≡ at + length bytes.now) × (out.new ≡ paste out.old at bytes.now (length bytes.now)) }
{
    // Kept: std's copy of a slice would have the archive for C ask for memmove.
    for i in 0..bytes.len() {
        out[at + i] = bytes[i];
    }
    at + bytes.len()
}

impl Speller<'_> {
    // Whether a code, written as bytes, is read as one code with this character.
    fn reads_back(&self, unit: u16, code: u16) -> bool
        ensures { result ≡ reads_back (byte_reader self.now.bytes.tables) unit code }
    {
        let bytes = self.bytes;
        let tables = bytes.tables;
        if code <= 0xFF {
            return is_character(tables.byte_alone(code as u8), unit);
        }
        let lead = (code / 256) as u8;
        if !tables.is_lead(lead) {
            return false;
        }
        let settled = bytes.settle(lead, (code % 256) as u8);
        if settled.more == 0 {
            return false;
        }
        let means = settled.means;
        is_character(means, unit)
    }

    // The code that spells a character: its own, if the character is no surrogate and the code reads back as it.
    fn unit_spelling(&self, unit: u16) -> Option<u16>
        ensures { result ≡ option_of (unit_spelling (byte_reader self.now.bytes.tables) self.now.units.index.now self.now.units.blocks.now unit) }
    {
        let units = self.units;
        let own = units.unit_alone(unit);
        match own {
            Ok(code) => {
                if self.reads_back(unit, code) {
                    return Some(code);
                }
                None
            }
            Err(_) => None,
        }
    }

    // The code at a place: its size, and the code that spells it.
    fn spelled_at(&self, text: &[u8], place: usize) -> SpelledCode
        requires { place < length text.now }
        ensures { SpelledRead (byte_reader self.now.bytes.tables) self.now.units.index.now self.now.units.blocks.now text.now place result }
    {
        let read = codepage_walk::code_in(&self.bytes, text, place);
        let size = read.size;
        let means = read.means;
        match means {
            Ok(unit) => {
                let code = self.unit_spelling(unit);
                SpelledCode { size, code }
            }
            Err(_) => SpelledCode { size, code: None },
        }
    }

    // Whether a number is a character that is no surrogate and whose own code is this one.
    fn has_code(&self, unit: u16, code: u16) -> bool
        ensures { result ≡ true → (unit ≡ 0xFFFF → ⊥) × (unit_alone self.now.units.index.now self.now.units.blocks.now unit ≡ Ok code) }
    {
        if unit == NO_CODE {
            return false;
        }
        if is_surrogate(unit) {
            return false;
        }
        let units = self.units;
        let own = units.code_of(unit);
        if own == NO_CODE {
            return false;
        }
        own == code
    }

    // How many bytes the code has that begins with these two, if it is found here to be spelled as it stands.
    fn same_size(&self, first: u8, second: u8) -> Option<usize>
        ensures { IfSome result (λ size. SameSize self.now.bytes.tables.classes.now self.now.bytes.tables.singles.now self.now.bytes.tables.pairs.now self.now.units.index.now self.now.units.blocks.now first second size) }
    {
        let bytes = self.bytes;
        let tables = bytes.tables;
        if tables.is_lead(first) {
            let unit = bytes.pair_unit(first, second);
            if self.has_code(unit, 256 * (first as u16) + (second as u16)) {
                return Some(2);
            }
            return None;
        }
        let unit = tables.single_unit(first);
        if self.has_code(unit, first as u16) {
            return Some(1);
        }
        None
    }

    // Passes over codes that are spelled as they stand, from a place on: the place behind them.
    fn pass_same(&self, text: &[u8], from: usize) -> usize
        requires { from ≤ length text.now }
        ensures { SpanSame (byte_reader self.now.bytes.tables) self.now.units.index.now self.now.units.blocks.now text.now from result }
    {
        let mut place = from;
        // Kept: a turn moves by the code that it read, so there is no range to go over.
        while 2 <= text.len() - place {
            let size = self.same_size(text[place], text[place + 1]);
            let Some(size) = size else {
                return place;
            };
            place += size;
        }
        place
    }

    // Whether a text is below 80 throughout, on a page that keeps such text as it is both ways: then it is its own spelling.
    fn is_plain(&self, text: &[u8]) -> bool
        ensures { result ≡ true → SpanSame (byte_reader self.now.bytes.tables) self.now.units.index.now self.now.units.blocks.now text.now 0 (length text.now) }
    {
        if !plain::bytes_below_80(text) {
            return false;
        }
        let bytes = self.bytes;
        let tables = bytes.tables;
        if !tables.keeps_plain() {
            return false;
        }
        let units = self.units;
        units.keeps_plain()
    }

    // How much of a text's front is spelled as it stands.
    fn same_front(&self, text: &[u8]) -> usize
        ensures { SpanSame (byte_reader self.now.bytes.tables) self.now.units.index.now self.now.units.blocks.now text.now 0 result }
    {
        if self.is_plain(text) {
            return text.len();
        }
        self.pass_same(text, 0)
    }

    // Checks every code, up to the first at fault, and counts the bytes of the spelling. Up to `from` it is the text as it stands.
    fn count_spelling(&self, text: &[u8], from: usize) -> Result<usize, Refusal>
        requires short { length text.now ≤ piece_limit }
        requires span_same { SpanSame (byte_reader self.now.bytes.tables) self.now.units.index.now self.now.units.blocks.now text.now 0 from }
        ensures { result ≡ counted_of (byte_reader self.now.bytes.tables) self.now.units.index.now self.now.units.blocks.now text.now }
    {
        let mut place = from;
        let mut bytes = from;
        // Kept: a turn moves by the codes that it read, so there is no range to go over.
        while place < text.len() {
            let next = self.spelled_at(text, place);
            let code = next.code.ok_or(Refusal::AtFault(place))?;
            let after = place + next.size;
            place = self.pass_same(text, after);
            bytes = bytes + byte_count(code) + (place - after);
        }
        Ok(bytes)
    }

    // Writes what is left of a spelling whose first bytes, up to `from`, are written and are the text's own.
    fn write_rest(&self, text: &[u8], from: usize, out: &mut [u8])
        requires begun { Begun (byte_reader self.now.bytes.tables) self.now.units.index.now self.now.units.blocks.now text.now from out.old }
        ensures { out.new ≡ over out.old (bytes_for (byte_reader self.now.bytes.tables) self.now.units.index.now self.now.units.blocks.now text.now) }
    {
        let mut place = from;
        let mut written = from;
        // Kept: a turn moves by the codes that it read, so there is no range to go over.
        while place < text.len() {
            let next = self.spelled_at(text, place);
            let at = put_code(next.code.unwrap(), out, written);
            let after = place + next.size;
            place = self.pass_same(text, after);
            written = put_bytes(&text[after..place], out, at);
        }
    }

    // Writes the spelling of a text that has no code at fault, at the front of the output. Up to `from` it is the text as it stands.
    fn write_spelling(&self, text: &[u8], from: usize, out: &mut [u8])
        requires span_same { SpanSame (byte_reader self.now.bytes.tables) self.now.units.index.now self.now.units.blocks.now text.now 0 from × (length text.now ≤ piece_limit) }
        requires text_value { (fault_of (byte_reader self.now.bytes.tables) self.now.units.index.now self.now.units.blocks.now text.now ≡ none) × (length (bytes_for (byte_reader self.now.bytes.tables) self.now.units.index.now self.now.units.blocks.now text.now) ≤ length out.old) }
        ensures { out.new ≡ over out.old (bytes_for (byte_reader self.now.bytes.tables) self.now.units.index.now self.now.units.blocks.now text.now) }
    {
        put_bytes(&text[..from], out, 0);
        self.write_rest(text, from, out);
    }
}

// The standard spelling of a text, at the front of the output: the bytes behind it stay as they are.
pub fn standard_spelling(tables: &TableSet, text: &[u8], out: &mut [u8]) -> Result<usize, Refusal>
    ensures { SpelledAs (spelling_of (page_of tables.now) text.now (length out.old)) result out.old out.new }
{
    if !codepage::shape::good_shape(tables) {
        return Err(Refusal::BadShape);
    }
    if Run::PIECE_LIMIT < text.len() {
        return Err(Refusal::TooLong);
    }
    let bytes = ByteTables {
        classes: tables.classes,
        singles: tables.singles,
        pairs: tables.pairs,
    };
    let units = UnitTables {
        index: tables.index,
        blocks: tables.blocks,
    };
    let bytes = bytes.with_leads();
    let speller = Speller { bytes, units };
    let same = speller.same_front(text);
    let bytes = speller.count_spelling(text, same)?;
    if Run::PIECE_LIMIT < bytes {
        return Err(Refusal::SpellingTooLong);
    }
    if out.len() < bytes {
        return Err(Refusal::SpellingTooLong);
    }
    speller.write_spelling(text, same, out);
    Ok(bytes)
}
