// An index beside a stored journal, to find the code (the character) of a number. (Document 02, CR 11; docs/RULES.md, "Index".) For each
// full or begun block of 512 bytes it has an entry, one number: twice the codes that start before the block, and 1 more if the block's
// first byte is the second byte of a code. Every 32-bit number is an entry.
//
// `append` extends the index after bytes were appended to the journal: from a former length of 0 it makes it anew. `find` answers the
// place and the length of code n, from 0.
//
//     let appended = charindex::append(&tables, journal, former, entries);
//     // Ok(count), or Err(why): why.number()
//     let found = charindex::find(&tables, journal, entries, n);
//     // Ok(Found { place, length }), or Err(why)

#![tactic(auto)]

ghost use Rattle.std.specs.Prelude.{◌≡◌, ◌*◌, ◌≤◌, length};
ghost use Rattle.codepage.specs.CodePage.{page_of};
ghost use Rattle.codepage.specs.Reading.{Reader};
ghost use Rattle.convert.specs.Runs.{piece_limit};
ghost use Rattle.codepage_walk.specs.Checks.{ForClasses};
ghost use Rattle.charindex.specs.Index.{blocks_of, start_at, last_block, codes_from, code_number, find_of};
ghost use Rattle.charindex.specs.Calls.{index_number, appending_of, AppendedAs, finding_of};
ghost use Rattle.charindex.specs.Steps.{Inside, Reached, written_entries, block_found, code_found, checked_start, going_on};

use codepage::TableSet;
use convert::Run;

// Why a call is refused.
#[derive(Clone, Copy)]
pub enum Refusal {
    // 10: the shape of the tables is not good.
    BadShape,
    // 11: the journal is over the limit.
    TooLong,
    // 33: the former length is over the journal's.
    FormerTooLong,
    // 28: the index is too short, or its former last entry counts more codes than bytes before its block.
    BadIndex,
    // 29: there is no such block or no such code.
    NoSuchCode,
}

// The place of a code that was found, and its length.
#[derive(Clone, Copy)]
pub struct Found {
    pub place: usize,
    pub length: usize,
}

impl Refusal {
    // The number that document 02 gives the refusal.
    pub fn number(self) -> u8
        ensures { result ≡ index_number self }
    {
        match self {
            Refusal::BadShape => 10,
            Refusal::TooLong => 11,
            Refusal::FormerTooLong => 33,
            Refusal::BadIndex => 28,
            Refusal::NoSuchCode => 29,
        }
    }
}

// A place where a code begins or the text ends, and how many codes start before it.
#[derive(Clone, Copy)]
struct Start {
    place: usize,
    count: usize,
}

// How many full or begun blocks there are.
fn blocks_of(size: usize) -> usize
    requires { size ≤ piece_limit }
    ensures { result ≡ blocks_of size }
{
    (size + 511) / 512
}

// Where reading goes on at a block, by its entry.
fn start_of(block: usize, entry: u32) -> Start
    requires { block ≤ piece_limit }
    ensures { result ≡ start_at block entry }
{
    let mark = (entry % 2) as usize;
    let count = (entry / 2) as usize;
    Start {
        place: 512 * block + mark,
        count,
    }
}

// Reads on to a place: behind the codes that start before it.
fn read_to(classes: &[u8], text: &[u8], from: Start, to: usize) -> Start
    requires { (length classes.now ≡ 256) × Inside text.now from × (from.place ≤ to) × (to ≤ length text.now) × (length text.now ≤ piece_limit) }
    ensures { Inside text.now result × ForClasses classes.now (λ (reader : Reader). Reached reader text.now from to result) }
{
    let mut at = from;
    // Kept: where a code begins is known only once the code before it is read, so there is no range to go over.
    while at.place < to {
        at.place += codepage_walk::code_size(classes, text, at.place);
        at.count += 1;
    }
    at
}

// Writes the entries of the blocks from `first` on, reading on from a start.
fn write_entries(classes: &[u8], journal: &[u8], start: Start, first: usize, entries: &mut [u32])
    requires classes_len { (length classes.now ≡ 256) × Inside journal.now start × (start.place ≤ 512 * first) × (length journal.now ≤ piece_limit) }
    requires first_bound { (first ≤ blocks_of (length journal.now)) × (blocks_of (length journal.now) ≤ length entries.old) }
    ensures { ForClasses classes.now (λ (reader : Reader). entries.new ≡ written_entries reader journal.now start first entries.old) }
{
    let mut at = start;
    for block in first..blocks_of(journal.len()) {
        at = read_to(classes, journal, at, 512 * block);
        entries[block] = (2 * at.count + (at.place - 512 * block)) as u32;
    }
}

// Where reading goes on behind the first blocks: at the last of them, by its entry; at the front, where there is none.
fn start_after(entries: &[u32], blocks: usize) -> Result<Start, Refusal>
    requires { (blocks ≤ length entries.now) × (blocks ≤ piece_limit) }
    ensures { result ≡ checked_start entries.now blocks }
{
    if blocks == 0 {
        return Ok(Start { place: 0, count: 0 });
    }
    let start = start_of(blocks - 1, entries[blocks - 1]);
    if 512 * (blocks - 1) < start.count {
        return Err(Refusal::BadIndex);
    }
    Ok(start)
}

// Appends to an index that has an entry for each block of the journal.
fn append_entries(
    classes: &[u8],
    journal: &[u8],
    former: usize,
    entries: &mut [u32],
) -> Result<usize, Refusal>
    requires { (length classes.now ≡ 256) × (former ≤ length journal.now) × (length journal.now ≤ piece_limit) × (blocks_of (length journal.now) ≤ length entries.old) }
    ensures { ForClasses classes.now (λ (reader : Reader). AppendedAs (going_on reader journal.now former entries.old) result entries.new) }
{
    let first = blocks_of(former);
    let start = start_after(entries, first)?;
    write_entries(classes, journal, start, first, entries);
    Ok(blocks_of(journal.len()))
}

// Extends the index of a journal that had `former` bytes: goes on from the former last entry, and touches nothing before it and nothing
// behind the new last.
pub fn append(
    tables: &TableSet,
    journal: &[u8],
    former: usize,
    entries: &mut [u32],
) -> Result<usize, Refusal>
    ensures { AppendedAs (appending_of (page_of tables.now) journal.now former entries.old) result entries.new }
{
    if !codepage::shape::good_shape(tables) {
        return Err(Refusal::BadShape);
    }
    if Run::PIECE_LIMIT < journal.len() {
        return Err(Refusal::TooLong);
    }
    if journal.len() < former {
        return Err(Refusal::FormerTooLong);
    }
    if entries.len() < blocks_of(journal.len()) {
        return Err(Refusal::BadIndex);
    }
    append_entries(tables.classes, journal, former, entries)
}

// The last of the first blocks whose entry counts at most n.
fn last_block(entries: &[u32], n: u64, blocks: usize) -> Option<usize>
    requires { blocks ≤ length entries.now }
    ensures { result ≡ block_found (last_block entries.now n blocks) }
{
    for block in (0..blocks).rev() {
        if ((entries[block] / 2) as u64) <= n {
            return Some(block);
        }
    }
    None
}

// The code before which so many others start, from a place on.
fn code_after(classes: &[u8], journal: &[u8], from: usize, skipped: u64) -> Option<Found>
    requires { (length classes.now ≡ 256) × (from ≤ length journal.now) × (length journal.now ≤ piece_limit) }
    ensures { ForClasses classes.now (λ (reader : Reader). result ≡ code_found (code_number skipped (codes_from reader journal.now from))) }
{
    let mut place = from;
    for _ in 0..skipped {
        if journal.len() <= place {
            return None;
        }
        place += codepage_walk::code_size(classes, journal, place);
    }
    if journal.len() <= place {
        return None;
    }
    let length = codepage_walk::code_size(classes, journal, place);
    Some(Found { place, length })
}

// Finds code n by an index that has an entry for each block.
fn find_code(classes: &[u8], journal: &[u8], entries: &[u32], n: u64) -> Option<Found>
    requires { (length classes.now ≡ 256) × (length journal.now ≤ piece_limit) × (blocks_of (length journal.now) ≤ length entries.now) }
    ensures { ForClasses classes.now (λ (reader : Reader). result ≡ code_found (find_of reader journal.now entries.now n)) }
{
    let block = last_block(entries, n, blocks_of(journal.len()))?;
    let start = start_of(block, entries[block]);
    code_after(classes, journal, start.place, n - (start.count as u64))
}

// Finds code n of a journal, from 0, by its index: any numbers may be in it.
pub fn find(tables: &TableSet, journal: &[u8], entries: &[u32], n: u64) -> Result<Found, Refusal>
    ensures { result ≡ finding_of (page_of tables.now) journal.now entries.now n }
{
    if !codepage::shape::good_shape(tables) {
        return Err(Refusal::BadShape);
    }
    if Run::PIECE_LIMIT < journal.len() {
        return Err(Refusal::TooLong);
    }
    if entries.len() < blocks_of(journal.len()) {
        return Err(Refusal::BadIndex);
    }
    find_code(tables.classes, journal, entries, n).ok_or(Refusal::NoSuchCode)
}
