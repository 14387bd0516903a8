// Units encoded inside the one buffer that holds them. (Document 02, CR 9; docs/RULES.md, "One buffer".)
//
// The buffer holds units as two bytes each, low byte first. The bytes that they encode to stand at its front after the call; behind
// them the buffer is as it was.
//
//     let encoded = inplace::encode_in_place(policy, &tables, buffer);
//     // Ok(encoded): the result, or the result so far where encoded.ending is Stopped, is buffer[..encoded.written];
//     // Err(why): why.number(), and the buffer is untouched

#![tactic(auto)]

ghost use Rattle.std.specs.Prelude.{Ok, List, ◌≡◌, ℕ, ◌+◌, ◌*◌, ◌/◌, ◌<◌, ◌≤◌, ◌^◌, eqb, length};
ghost use Rattle.codepage.specs.CodePage.{page_of, pick};
ghost use Rattle.codepage_lookup.specs.Tables.{unit_reader};
ghost use Rattle.engine.specs.Converters.{by_units};
ghost use Rattle.utf16.specs.Utf16.{utf16_units};
ghost use Rattle.engine.specs.Engine.{whole};
ghost use Rattle.engine.specs.Steps.{Ends};
ghost use Rattle.inplace.specs.InPlace.{buffer_number, encoded_number, in_place_of, EncodedAs};
ghost use Rattle.inplace.specs.Steps.{answered, chunk_added, PartDone, ChunkDone};

use codepage::TableSet;
use codepage_lookup::tables::UnitTables;
use convert::Run;
use engine::converters::UnitConverter;
use engine::progress::Progress;
use engine::{Direction, Policy, policies};
use engine_loops::encoder;

// How many units are copied out of the buffer at a time: what a call asks of its page once is asked for each chunk, so many are better,
// and with these the call's stack is under 1 KiB.
const CHUNK: usize = 384;

// Why a call is refused.
#[derive(Clone, Copy)]
pub enum Refusal {
    // 17: a policy digit is not allowed.
    BadPolicy,
    // 10: the shape of the tables is not good.
    BadShape,
    // 26: the number of bytes is odd.
    OddBytes,
    // 11: the buffer holds more units than the limit.
    TooLong,
}

// How a call that was not refused ended.
#[derive(Clone, Copy)]
pub enum Ending {
    // 0: all read.
    All,
    // 3: stopped by policy digit 0.
    Stopped,
}

// What a call that was not refused answers: how it ended, the flags, the units read, and the bytes written at the buffer's front.
#[derive(Clone, Copy)]
pub struct Encoded {
    pub ending: Ending,
    pub flags: u8,
    pub read: usize,
    pub written: usize,
}

impl Refusal {
    // The number that documents 01 and 02 give the refusal.
    pub fn number(self) -> u8
        ensures { result ≡ buffer_number self }
    {
        match self {
            Refusal::BadPolicy => 17,
            Refusal::BadShape => 10,
            Refusal::OddBytes => 26,
            Refusal::TooLong => 11,
        }
    }
}

impl Encoded {
    // The number that documents 01 and 02 give the answer.
    pub fn number(self) -> u8
        ensures { result ≡ encoded_number (Ok self) }
    {
        match self.ending {
            Ending::All => 0,
            Ending::Stopped => 3,
        }
    }
}

impl From<Progress> for Encoded {
    ghost from_gives = { λ s e. e ≡ answered s };

    // The answer of a call that was not refused.
    fn from(s: Progress) -> Encoded {
        let ending = if s.answer == 3 {
            Ending::Stopped
        } else {
            Ending::All
        };
        Encoded {
            ending,
            flags: s.flags,
            read: s.used,
            written: s.written,
        }
    }
}

// The answer of a chunk, for the call: 3 ends it, and else it goes on.
fn chunk_answer(answer: u8) -> u8
    ensures { result ≡ pick (eqb answer 3) 3 0 }
{
    if answer == 3 {
        return 3;
    }
    0
}

// What a chunk gave, behind what was before it.
fn add_chunk(s: Progress, made: Progress) -> Progress
    requires { (s.used + made.used < 2 ^ 64) × (s.written + made.written < 2 ^ 64) }
    ensures { result ≡ chunk_added s made }
{
    Progress {
        answer: chunk_answer(made.answer),
        used: s.used + made.used,
        written: s.written + made.written,
        flags: s.flags | made.flags,
    }
}

// Takes a chunk of the units that are left: they are copied out of the buffer, and then encoded into it, behind what was written. What is
// written never reaches the units that are left behind the chunk. A high surrogate at the chunk's end stays pending, and begins the
// next one.
fn take_chunk(v: &UnitConverter<'_>, s: Progress, chunk: &mut [u16], buffer: &mut [u8]) -> Progress
    requires { (s.written ≤ 2 * s.used) × (s.used < length buffer.old / 2) × (2 ≤ length chunk.old) }
    ensures { (before : List ℕ) → PartDone (by_units v.now) before s buffer.old → ChunkDone (by_units v.now) before s buffer.new result }
{
    let from = 2 * s.used;
    let count = utf16::to_units(&buffer[from..], chunk);
    let last = s.used + count == buffer.len() / 2;
    let at = s.written;
    let made = encoder::encode_loop(v, None, &chunk[..count], last, &mut buffer[at..]);
    add_chunk(s, made)
}

// Encodes the units that a buffer holds, chunk after chunk.
fn encode_units(v: &UnitConverter<'_>, buffer: &mut [u8]) -> Progress
    ensures { Ends (whole (unit_reader v.now.tables) v.now.policy v.now.default (utf16_units buffer.old)) buffer.old buffer.new result }
{
    let mut s = Progress {
        answer: 0,
        used: 0,
        written: 0,
        flags: 0,
    };
    let mut chunk = [0u16; CHUNK];
    // Kept: each turn moves by the units that it read, so there is no range to go over.
    while s.used < buffer.len() / 2 {
        s = take_chunk(v, s, &mut chunk, buffer);
        if s.answer != 0 {
            return s;
        }
    }
    s
}

// Encodes the units that the buffer holds inside it, the result at its front.
pub fn encode_in_place(
    policy: Policy,
    tables: &TableSet,
    buffer: &mut [u8],
) -> Result<Encoded, Refusal>
    ensures { EncodedAs (in_place_of policy (page_of tables.now) buffer.old) result buffer.new }
{
    if !policies::allowed(Direction::Encoding, policy) {
        return Err(Refusal::BadPolicy);
    }
    if !codepage::shape::good_shape(tables) {
        return Err(Refusal::BadShape);
    }
    if buffer.len() % 2 != 0 {
        return Err(Refusal::OddBytes);
    }
    if Run::PIECE_LIMIT < buffer.len() / 2 {
        return Err(Refusal::TooLong);
    }
    let units = UnitTables {
        index: tables.index,
        blocks: tables.blocks,
    };
    let numbers = tables.numbers;
    let converter = UnitConverter {
        tables: units,
        policy,
        default: numbers.default_byte,
    };
    let s = encode_units(&converter, buffer);
    Ok(Encoded::from(s))
}
