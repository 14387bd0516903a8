// A table listing, a table set as a text with one record a line, read line by line into lent tables. (Document 02, CR 3; docs/RULES.md,
// "Listings".) Keep what `read_line` gives back, and give it to the next line; a refused line changes nothing, and another may be tried. The
// end gives page, defaults and the sizes to cut the tables to.
//
//     let mut progress = Progress::new();
//     // for each line, with its line feed:
//     let read = listing::read_line(progress, line, classes, singles, pairs, index, blocks);
//     // Ok(next): progress = next; or Err(why): why.number()
//     let ended = listing::end(progress);
//     // Ok((numbers, sizes)), or Err(why)

#![tactic(auto)]

mod change;
pub mod form;
mod order;
mod sets;

ghost use Rattle.std.specs.Prelude.{◌≡◌};
ghost use Rattle.listing.specs.Order.{nothing_read};
ghost use Rattle.listing.specs.Tables.{listing_number, tables, tables_fit, reading_as, line_reading, listing_end};

use codepage::Numbers;
pub use codepage::Sizes;

// 128 bytes as bits.
#[derive(Clone, Copy)]
pub struct Half {
    pub low: u64,
    pub high: u64,
}

// 256 bytes as bits.
#[derive(Clone, Copy)]
pub struct Bytes {
    pub low: Half,
    pub high: Half,
}

// The record of a line.
#[derive(Clone, Copy)]
pub enum Record {
    // `P`: the page.
    Page(u16),
    // `D`: default byte, default unit.
    Defaults(u8, u16),
    // `S`: a single byte and its unit, FFFF where it has no character.
    Single(u8, u16),
    // `L`: a lead byte.
    Lead(u8),
    // `T`: a byte that may be second.
    Trail(u8),
    // `M`: a code of two bytes and its unit.
    Pair(u16, u16),
    // `W`: a unit and its code.
    Code(u16, u16),
    // No record: the line breaks the form.
    NoRecord,
}

// The letter of the last record.
#[derive(Clone, Copy)]
pub enum Letter {
    Start,
    P,
    D,
    S,
    L,
    T,
    M,
    W,
}

// What has been read of a listing.
#[derive(Clone, Copy)]
pub struct Progress {
    // The letter and the key of the last record.
    pub letter: Letter,
    pub key: u16,
    // The bytes listed by `S`, by `L` (from 80 on) and by `T`.
    pub singles: Bytes,
    pub leads: Half,
    pub trails: Bytes,
    // The block of the last `W` record; 0 before the first, and for the 256th high half.
    pub block: u8,
    pub numbers: Numbers,
}

// Why a line or the end is refused.
#[derive(Clone, Copy)]
pub enum Refusal {
    // 22: the line breaks the form or order, or the end comes before `P` and `D`.
    BadLine,
    // 23: a lent table is too small for the line or the place reached.
    TooSmall,
}

impl Refusal {
    // The number that document 02 gives the refusal.
    pub fn number(self) -> u8
        ensures { result ≡ listing_number self }
    {
        match self {
            Refusal::BadLine => 22,
            Refusal::TooSmall => 23,
        }
    }
}

// Whether each table has at least the size needed.
#[tactic(auto, unfolding(crate::specs::Tables::tables_fit))]
fn has_room(
    needed: Sizes,
    classes: &[u8],
    singles: &[u16],
    pairs: &[u16],
    index: &[u8],
    blocks: &[u16],
) -> bool
    ensures { result ≡ tables_fit needed (tables classes.now singles.now pairs.now index.now blocks.now) }
{
    needed.classes <= classes.len()
        && needed.singles <= singles.len()
        && needed.pairs <= pairs.len()
        && needed.index <= index.len()
        && needed.blocks <= blocks.len()
}

// Reads one line: one record with its line feed. Where it is refused the tables stay as before it.
pub fn read_line(
    progress: Progress,
    line: &[u8],
    classes: &mut [u8],
    singles: &mut [u16],
    pairs: &mut [u16],
    index: &mut [u8],
    blocks: &mut [u16],
) -> Result<Progress, Refusal>
    ensures { reading_as result (tables classes.new singles.new pairs.new index.new blocks.new) ≡ line_reading progress line.now (tables classes.old singles.old pairs.old index.old blocks.old) }
{
    let item = form::record_of(line);
    if !order::is_accepted(progress, item) {
        return Err(Refusal::BadLine);
    }
    let next = order::after_record(progress, item);
    if !has_room(
        order::sizes_needed(next),
        classes,
        singles,
        pairs,
        index,
        blocks,
    ) {
        return Err(Refusal::TooSmall);
    }
    change::change(progress, next, item, classes, singles, pairs, index, blocks);
    Ok(next)
}

// The end of a listing.
#[tactic(auto, unfolding(crate::specs::Tables::listing_end))]
pub fn end(progress: Progress) -> Result<(Numbers, Sizes), Refusal>
    ensures { result ≡ listing_end progress }
{
    if order::rank_of(progress.letter) < 2 {
        return Err(Refusal::BadLine);
    }
    Ok((progress.numbers, order::sizes_needed(progress)))
}

impl Progress {
    // Nothing has been read.
    pub fn new() -> Self
        ensures { result ≡ nothing_read }
    {
        order::only_page(Letter::Start, 0)
    }
}
