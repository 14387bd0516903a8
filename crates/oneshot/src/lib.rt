// A whole text converted in one call; with empty room it is only counted. (Document 02, CR 10; docs/RULES.md, "A whole text in one
// call".)
//
// `decode_text` and `encode_text` answer with how the text ended, flags, what was read and written, and the need: how much room all of
// the text needs. `convert_filled` also hands back the part of the lent output that was filled, in either direction.
//
//     let counted = oneshot::decode_text(policy, &tables, text, &mut [])?;
//     let need = counted.totals.need;

#![tactic(auto)]

mod text;

ghost use Rattle.std.specs.Prelude.{◌≡◌, ◌⊎◌, ℕ, length};
ghost use Rattle.codepage.specs.CodePage.{page_of};
ghost use Rattle.engine.specs.declared.Direction.TheVariants.{Decoding, Encoding};
ghost use Rattle.engine.specs.Engine.{limit, endless};
ghost use Rattle.engine.specs.Steps.{summary};
ghost use Rattle.oneshot.specs.Texts.{text_refusal, text_fed, text_of, ending_number, refused_number, converted_number, converted_totals, totals_or_none, ConvertedAs, FilledAs};
ghost use Rattle.oneshot.specs.Steps.{refused_as, totals_by};

use codepage::TableSet;
use convert::{Direction, Policy, Run};
use engine::policies;
use engine::progress::Progress;
pub use text::Text;

// What a text gave: the flags of its whole reading, the units read, the units of output that it needs, and those written.
#[derive(Clone, Copy)]
pub struct Totals {
    pub flags: u8,
    pub read: usize,
    pub need: usize,
    pub written: usize,
}

// How a text ended.
#[derive(Clone, Copy, Debug, PartialEq, Eq)]
pub enum Ending {
    // 0: all read.
    AllRead,
    // 2: the need is over the room.
    OutputFull,
    // 3: stopped by policy digit 0.
    Stopped,
}

// What the call gives.
#[derive(Clone, Copy)]
pub struct Converted {
    pub ending: Ending,
    pub totals: Totals,
}

// Why a text is refused.
#[derive(Clone, Copy, Debug, PartialEq, Eq)]
pub enum TextRefusal {
    // 17: a policy digit is not allowed.
    BadPolicy,
    // 10: the shape of the tables is not good.
    BadShape,
    // 11: the text is over the limit.
    TooLong,
}

impl Ending {
    // The number that documents 01 and 02 give the answer.
    pub fn number(self) -> u8
        ensures { result ≡ ending_number self }
    {
        match self {
            Ending::AllRead => 0,
            Ending::OutputFull => 2,
            Ending::Stopped => 3,
        }
    }

    // By the engine's number.
    fn of(answer: u8) -> Ending
        requires { (answer ≡ 0) ⊎ ((answer ≡ 2) ⊎ (answer ≡ 3)) }
        ensures { ending_number result ≡ answer }
    {
        match answer {
            0 => Ending::AllRead,
            2 => Ending::OutputFull,
            _ => Ending::Stopped,
        }
    }
}

impl TextRefusal {
    // The number that documents 01 and 02 give the refusal.
    pub fn number(self) -> u8
        ensures { result ≡ refused_number self }
    {
        match self {
            TextRefusal::BadPolicy => 17,
            TextRefusal::BadShape => 10,
            TextRefusal::TooLong => 11,
        }
    }
}

// The number that documents 01 and 02 give the answer.
pub fn number_of(answer: Result<Converted, TextRefusal>) -> u8
    ensures { result ≡ converted_number answer }
{
    match answer {
        Ok(converted) => converted.ending.number(),
        Err(refusal) => refusal.number(),
    }
}

// Flags, read, need and written; of a refusal zeros.
pub fn totals_of(answer: Result<Converted, TextRefusal>) -> Totals
    ensures { result ≡ totals_or_none (converted_totals answer) }
{
    match answer {
        Ok(converted) => converted.totals,
        Err(_) => Totals {
            flags: 0,
            read: 0,
            need: 0,
            written: 0,
        },
    }
}

// The first check that a text of `count` units fails.
#[tactic(auto, unfolding(crate::specs::Texts::text_refusal))]
fn check(
    direction: Direction,
    policy: Policy,
    tables: &TableSet,
    count: usize,
) -> Result<(), TextRefusal>
    ensures { refused_as result ≡ text_refusal direction policy (page_of tables.now) count }
{
    if !policies::allowed(direction, policy) {
        return Err(TextRefusal::BadPolicy);
    }
    if !codepage::shape::good_shape(tables) {
        return Err(TextRefusal::BadShape);
    }
    if Run::PIECE_LIMIT < count {
        return Err(TextRefusal::TooLong);
    }
    Ok(())
}

// Flags and need of the whole reading, read and written of the conversion.
fn totals_by(whole: Progress, made: Progress) -> Totals
    ensures { result ≡ totals_by whole made }
{
    Totals {
        flags: whole.flags,
        read: made.used,
        need: whole.written,
        written: made.written,
    }
}

// A conversion that came to 0, 2 or 3.
fn accepted_conversion(whole: Progress, made: Progress) -> Converted
    requires { (made.answer ≡ 0) ⊎ ((made.answer ≡ 2) ⊎ (made.answer ≡ 3)) }
    ensures { (ending_number result.ending ≡ made.answer) × (result.totals ≡ totals_by whole made) }
{
    Converted {
        ending: Ending::of(made.answer),
        totals: totals_by(whole, made),
    }
}

// The whole reading of a text, from its conversion: the same, unless room ended.
fn whole_of<I: Text>(policy: Policy, tables: &TableSet, text: &[I], made: Progress) -> Progress
    requires accepted { text_refusal I.direction policy (page_of tables.now) (length (I.units text.now)) ≡ 0 }
    ensures { (room : ℕ) → made ≡ summary (text_fed I.direction policy (page_of tables.now) (limit room) (I.units text.now)) → result ≡ summary (text_fed I.direction policy (page_of tables.now) endless (I.units text.now)) }
{
    if made.answer != 2 {
        return made;
    }
    I::count(policy, tables, text)
}

// Converts a text, and says what all of it needs; with empty room it only counts.
pub fn convert_text<I: Text>(
    policy: Policy,
    tables: &TableSet,
    text: &[I],
    out: &mut [I::Output],
) -> Result<Converted, TextRefusal>
    ensures { ConvertedAs (text_of I.direction policy (page_of tables.now) (I.units text.now) (length (I.written out.old))) result (I.written out.old) (I.written out.new) }
{
    check(I::direction(), policy, tables, text.len())?;
    let made = I::convert(policy, tables, text, out);
    let whole = whole_of(policy, tables, text, made);
    Ok(accepted_conversion(whole, made))
}

// Decodes a byte text, and says what all of it needs; with empty room it only counts.
// Kept: README.md and docs/PROMISES.md promise `convert_text` for bytes by this name.
pub fn decode_text(
    policy: Policy,
    tables: &TableSet,
    text: &[u8],
    out: &mut [u16],
) -> Result<Converted, TextRefusal>
    ensures { ConvertedAs (text_of Decoding policy (page_of tables.now) text.now (length out.old)) result out.old out.new }
{
    convert_text(policy, tables, text, out)
}

// Encodes a unit text, and says what all of it needs; with empty room it only counts.
// Kept: README.md and docs/PROMISES.md promise `convert_text` for units by this name.
pub fn encode_text(
    policy: Policy,
    tables: &TableSet,
    text: &[u16],
    out: &mut [u8],
) -> Result<Converted, TextRefusal>
    ensures { ConvertedAs (text_of Encoding policy (page_of tables.now) text.now (length out.old)) result out.old out.new }
{
    convert_text(policy, tables, text, out)
}

// How much of the lent output a text of units `I` filled: what was written.
fn filled_len<I: Text>(totals: Totals) -> usize
    ensures { result ≡ totals.written }
{
    totals.written
}

// Converts a text as `convert_text` does and hands back the filled part of the output.
pub fn convert_filled<'a, I: Text>(
    policy: Policy,
    tables: &TableSet,
    text: &[I],
    out: &'a mut [I::Output],
) -> Result<(Converted, &'a mut [I::Output]), TextRefusal>
    ensures { FilledAs I.written (text_of I.direction policy (page_of tables.now) (I.units text.now) (length (I.written out.old))) out.entry result }
{
    let converted = convert_text(policy, tables, text, out)?;
    let filled = filled_len::<I>(converted.totals);
    Ok((converted, &mut out[..filled]))
}
