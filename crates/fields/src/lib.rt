// Cuts a text of UTF-16 units that is met in blocks into fields, at bars and line feeds. A field is shown from the block, or from a lent
// buffer where it began in an earlier block. (Document 02, CR 1; docs/RULES.md, "Fields".)
//
// In the order of use: `Held::fresh` is the state before the first block; `next_field` gives the next field of a block and what ended
// it, or holds the block; `field` shows the units of a field that was found.
//
//     let answer = fields::next_field(&mut state, buffer, block, last)?;    // buffer: &mut [u16], at least 256
//                                                                           // then again on the block behind what was read

#![tactic(auto)]

ghost use Rattle.std.specs.Prelude.{◌≡◌, ◌&&◌, Ok, List, ℕ, ◌+◌, ◌≤◌, ltb, length, position};
ghost use Rattle.fields.specs.Fields.{field_units, refusal_number, fresh_held, over_from, read_with, found_call, held_call, field_call, FieldAnswered, front, ShownAs};
ghost use Rattle.fields.specs.Steps.{is_separator, separator_end, four_at, WordAt, nonzero_marked, marks_of};
ghost use Rattle.convert.specs.Runs.{piece_limit};

use convert::Run;

// What ends a field.
#[derive(Clone, Copy)]
pub enum End {
    // 007C
    Bar,
    // 000A, which ends a record too.
    LineFeed,
    // The text's end.
    Text,
}

// Where the units of a field are: at the front of the buffer or of the block.
#[derive(Clone, Copy)]
pub enum Place {
    Buffer,
    Block,
}

// A field that a call found: what ended it, where it is, how many units it has, and how many units of the block were read.
#[derive(Clone, Copy)]
pub struct Found {
    pub end: End,
    pub place: Place,
    pub count: usize,
    pub read: usize,
}

// Why a call is refused.
#[derive(Clone, Copy)]
pub enum Refusal {
    // 20: the buffer is shorter than 256 units.
    BufferTooShort,
    // 11: the block is over the limit.
    BlockTooLong,
    // 27: the state claims over 256 held units.
    InvalidState,
    // 21: the next field has over 256 units.
    FieldTooLong,
}

// What a call that is not refused answers.
#[derive(Clone, Copy)]
pub enum Answer {
    // The next field.
    Field(Found),
    // No field is complete: so many units, the whole block, were read and are held.
    Incomplete(usize),
}

// The state between calls: how many units of a field that was begun are held in the buffer.
#[derive(Clone, Copy)]
pub struct Held {
    pub count: usize,
}

impl Refusal {
    // The number that the documents give the refusal.
    pub fn number(self) -> u8
        ensures { result ≡ refusal_number self }
    {
        match self {
            Refusal::BufferTooShort => 20,
            Refusal::BlockTooLong => 11,
            Refusal::InvalidState => 27,
            Refusal::FieldTooLong => 21,
        }
    }
}

impl Held {
    // The most units of a field, and the least length of a buffer.
    pub const LIMIT: usize = 256;

    // The state before the first call: nothing is held.
    pub fn fresh() -> Self
        ensures { result ≡ fresh_held }
    {
        Held { count: 0 }
    }

    // Completes the next field: the units held and these, which lie at the front of the block.
    fn complete(&mut self, buffer: &mut [u16], units: &[u16], end: End) -> Found
        requires { (self.old.count + length units.now ≤ length buffer.old) × (length units.now ≤ piece_limit) }
        ensures { FieldAnswered (found_call self.old.count buffer.old units.now end) (Ok (Answer.Field result)) self.new buffer.new }
    {
        let held = self.count;
        let size = units.len();
        let read = read_with(end, size);
        *self = Held::fresh();
        if held == 0 {
            return Found {
                end,
                place: Place::Block,
                count: size,
                read,
            };
        }
        lay(buffer, held, units);
        Found {
            end,
            place: Place::Buffer,
            count: held + size,
            read,
        }
    }

    // Holds the whole block, and says how many units it has.
    fn hold(&mut self, buffer: &mut [u16], block: &[u16]) -> usize
        requires { self.old.count + length block.now ≤ length buffer.old }
        ensures { FieldAnswered (held_call self.old.count buffer.old block.now) (Ok (Answer.Incomplete result)) self.new buffer.new }
    {
        lay(buffer, self.count, block);
        self.count += block.len();
        block.len()
    }
}

const BAR: u16 = 0x7C;

const LINE_FEED: u16 = 0x0A;

// Whether a unit is a bar or a line feed.
fn is_separator(unit: u16) -> bool
    ensures { result ≡ is_separator unit }
{
    matches!(unit, BAR | LINE_FEED)
}

// What a separator ends.
fn end_of(unit: u16) -> End
    ensures { result ≡ separator_end unit }
{
    if unit == BAR {
        return End::Bar;
    }
    End::LineFeed
}

// Where the first separator stands.
fn first_separator(units: &[u16]) -> Option<usize>
    ensures { result ≡ position is_separator units.now }
{
    units.iter().position(|unit| is_separator(*unit))
}

// How many units stand before the first separator, looked at one by one.
fn scan(units: &[u16]) -> usize
    ensures { result ≡ length (field_units units.now) }
{
    first_separator(units).unwrap_or(units.len())
}

// The mark of each unit of a word: its top bit.
const MARKS: u64 = 0x8000800080008000;

// A bar, and a line feed, at each unit of a word.
const BARS: u64 = 0x007C007C007C007C;

const LINE_FEEDS: u64 = 0x000A000A000A000A;

// Four units as a word: the first is its lowest.
fn word_at(block: &[u16], i: usize) -> u64
    requires { i + 4 ≤ length block.now }
    ensures { WordAt block.now i result }
{
    let two = (block[i] as u64) + 0x10000 * (block[i + 1] as u64);
    let three = two + 0x100000000 * (block[i + 2] as u64);
    three + 0x1000000000000 * (block[i + 3] as u64)
}

// Marks each unit of a word that is not 0: its low bits and 7FFF carry into its top bit, and no further. The bits below are anything.
fn mark_nonzero(word: u64) -> u64
    ensures { result ≡ nonzero_marked 0x7FFF7FFF7FFF7FFF word }
{
    ((word & 0x7FFF7FFF7FFF7FFF) + 0x7FFF7FFF7FFF7FFF) | word
}

// The marks of those of four units that are no separators.
fn marks_of(block: &[u16], i: usize) -> u64
    requires { i + 4 ≤ length block.now }
    ensures { result ≡ marks_of (four_at block.now i) }
{
    let word = word_at(block, i);
    mark_nonzero(word ^ BARS) & mark_nonzero(word ^ LINE_FEEDS) & MARKS
}

// How many of four units stand before the first that is not marked.
fn first_unmarked(marks: u64) -> usize
    ensures { (result ≤ 4) × ((units : List ℕ) → length units ≡ 4 → marks ≡ marks_of units → result ≡ length (field_units units)) }
{
    (u64::trailing_zeros(marks ^ MARKS) / 16) as usize
}

// How many units stand before the first separator of a block. Four are looked at in a turn, as one word, since a turn costs as much as a unit.
fn field_size(block: &[u16]) -> usize
    ensures { result ≡ length (field_units block.now) }
{
    let words = block.len() / 4;
    for word in 0..words {
        let marks = marks_of(block, 4 * word);
        if marks != MARKS {
            return 4 * word + first_unmarked(marks);
        }
    }
    4 * words + scan(&block[4 * words..])
}

// Lays units over the buffer behind the units held.
fn lay(buffer: &mut [u16], held: usize, units: &[u16])
    requires { held + length units.now ≤ length buffer.old }
    ensures { buffer.new ≡ over_from held buffer.old units.now }
{
    // Kept: std's copy of a slice would have the archive for C ask for memmove.
    for i in 0..units.len() {
        buffer[held + i] = units[i];
    }
}

// The units of the block that a field takes: its own, and one for the separator that ended it.
fn read_with(end: End, size: usize) -> usize
    requires { size ≤ piece_limit }
    ensures { result ≡ read_with end size }
{
    match end {
        End::Bar => size + 1,
        End::LineFeed => size + 1,
        End::Text => size,
    }
}

// Whether the text's end ends a field: it has units.
fn ends_text(last: bool, count: usize) -> bool
    ensures { result ≡ (last && ltb 0 count) }
{
    last && 0 < count
}

// Gives the next field of a text, or holds the block. Each block begins at the first unread unit; a call marked last has the
// text's end. State and buffer are as the call before left them, at first a fresh state and any buffer of 256 units or more. A call
// that is refused leaves both as they were.
pub fn next_field(
    state: &mut Held,
    buffer: &mut [u16],
    block: &[u16],
    last: bool,
) -> Result<Answer, Refusal>
    ensures { FieldAnswered (field_call state.old.count buffer.old block.now last) result state.new buffer.new }
{
    let held = state.count;
    if buffer.len() < Held::LIMIT {
        return Err(Refusal::BufferTooShort);
    }
    if Run::PIECE_LIMIT < block.len() {
        return Err(Refusal::BlockTooLong);
    }
    if Held::LIMIT < held {
        return Err(Refusal::InvalidState);
    }
    let size = field_size(block);
    if Held::LIMIT < held + size {
        return Err(Refusal::FieldTooLong);
    }
    if size < block.len() {
        let end = end_of(block[size]);
        let found = state.complete(buffer, &block[..size], end);
        return Ok(Answer::Field(found));
    }
    if ends_text(last, held + size) {
        let found = state.complete(buffer, &block[..size], End::Text);
        return Ok(Answer::Field(found));
    }
    let read = state.hold(buffer, block);
    Ok(Answer::Incomplete(read))
}

// The first units of a slice, or none if it is too short.
fn first<'a>(units: &'a [u16], count: usize) -> &'a [u16]
    ensures { (result.ref_ptr ≡ units.entry.ref_ptr) × (result.now ≡ front count units.now) }
{
    if count <= units.len() {
        return &units[..count];
    }
    &units[..0]
}

// The units of a field that a call found: a part of the buffer or of the block, as they are after the call. None, if `found`
// does not lie in them.
pub fn field<'a>(buffer: &'a [u16], block: &'a [u16], found: Found) -> &'a [u16]
    ensures { ShownAs found buffer.entry block.entry result }
{
    let count = found.count;
    let place = found.place;
    match place {
        Place::Buffer => first(buffer, count),
        Place::Block => first(block, count),
    }
}
