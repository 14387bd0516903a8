// The order of the records, and what has been read of a listing.
ghost use Rattle.std.specs.Prelude.{◌≡◌, ℕ, ◌+◌, ◌≤◌, ◌<◌};
ghost use Rattle.listing.specs.Order.{rank, follows, is_listed_lead, accepts, is_new_high, code_block, with_lead, only_page, after_record, blocks_listed, sizes_listed, kind_of, class_of};

use crate::{Bytes, Half, Letter, Progress, Record, Sizes};
use codepage::Numbers;

// The place of a letter in the order.
pub fn rank_of(letter: Letter) -> u8
    ensures { result ≡ rank letter }
{
    match letter {
        Letter::Start => 0,
        Letter::P => 1,
        Letter::D => 2,
        Letter::S => 3,
        Letter::L => 4,
        Letter::T => 5,
        Letter::M => 6,
        Letter::W => 7,
    }
}

// Whether a record of this letter and key may come next.
#[tactic(auto, unfolding(crate::specs::Order::follows))]
fn may_follow(progress: Progress, letter: Letter, key: u16) -> bool
    ensures { result ≡ follows progress letter key }
{
    let last = rank_of(progress.letter);
    let now = rank_of(letter);
    2 <= last && (last < now || last == now && progress.key < key)
}

// Whether a byte is a lead byte that is listed.
#[tactic(auto, unfolding(crate::specs::Order::is_listed_lead))]
fn is_listed_lead(leads: Half, byte: u8) -> bool
    ensures { result ≡ is_listed_lead leads byte }
{
    0x80 <= byte && leads.contains(byte - 0x80)
}

// Whether an `L` may come next.
fn accepts_lead(progress: Progress, byte: u8) -> bool
    ensures { result ≡ accepts progress (Record.Lead byte) }
{
    may_follow(progress, Letter::L, u16::from(byte))
        && 0x80 <= byte
        && !progress.singles.contains(byte)
}

// Whether an `M` may come next.
fn accepts_pair(progress: Progress, code: u16, unit: u16) -> bool
    ensures { result ≡ accepts progress (Record.Pair code unit) }
{
    may_follow(progress, Letter::M, code)
        && is_listed_lead(progress.leads, (code / 256) as u8)
        && progress.trails.contains((code % 256) as u8)
}

// Whether a record may come next.
pub fn is_accepted(progress: Progress, item: Record) -> bool
    ensures { result ≡ accepts progress item }
{
    match item {
        Record::Page(_) => rank_of(progress.letter) == 0,
        Record::Defaults(_, _) => rank_of(progress.letter) == 1,
        Record::Single(byte, _) => may_follow(progress, Letter::S, u16::from(byte)),
        Record::Lead(byte) => accepts_lead(progress, byte),
        Record::Trail(byte) => may_follow(progress, Letter::T, u16::from(byte)),
        Record::Pair(code, unit) => accepts_pair(progress, code, unit),
        Record::Code(unit, _) => may_follow(progress, Letter::W, unit),
        Record::NoRecord => false,
    }
}

// Whether a unit is the first of its high half.
#[tactic(auto, unfolding(crate::specs::Order::is_new_high))]
pub fn is_new_high(progress: Progress, unit: u16) -> bool
    ensures { result ≡ is_new_high progress unit }
{
    rank_of(progress.letter) != 7 || progress.key / 256 != unit / 256
}

// The block of a unit's high half.
#[tactic(auto, unfolding(crate::specs::Order::code_block))]
pub fn code_block(progress: Progress, unit: u16) -> u8
    ensures { result ≡ code_block progress unit }
{
    if is_new_high(progress, unit) {
        progress.block.wrapping_add(1)
    } else {
        progress.block
    }
}

// A lead byte listed; a byte below 80 is none.
#[tactic(auto, unfolding(crate::specs::Order::with_lead))]
fn with_lead(leads: Half, byte: u8) -> Half
    ensures { result ≡ with_lead leads byte }
{
    if byte < 0x80 {
        leads
    } else {
        leads.with(byte - 0x80)
    }
}

// Nothing but a letter and a page.
pub fn only_page(letter: Letter, page: u16) -> Progress
    ensures { result ≡ only_page letter page }
{
    Progress {
        letter,
        key: 0,
        singles: Bytes::EMPTY,
        leads: Half::EMPTY,
        trails: Bytes::EMPTY,
        block: 0,
        numbers: Numbers {
            page,
            default_byte: 0,
            default_unit: 0,
        },
    }
}

// What has been read once a record is accepted.
pub fn after_record(progress: Progress, item: Record) -> Progress
    ensures { result ≡ after_record progress item }
{
    match item {
        Record::Page(page) => only_page(Letter::P, page),
        Record::Defaults(byte, unit) => Progress {
            letter: Letter::D,
            key: 0,
            numbers: Numbers {
                default_byte: byte,
                default_unit: unit,
                ..progress.numbers
            },
            ..progress
        },
        Record::Single(byte, _) => Progress {
            letter: Letter::S,
            key: u16::from(byte),
            singles: progress.singles.with(byte),
            ..progress
        },
        Record::Lead(byte) => Progress {
            letter: Letter::L,
            key: u16::from(byte),
            leads: with_lead(progress.leads, byte),
            ..progress
        },
        Record::Trail(byte) => Progress {
            letter: Letter::T,
            key: u16::from(byte),
            trails: progress.trails.with(byte),
            ..progress
        },
        Record::Pair(code, _) => Progress {
            letter: Letter::M,
            key: code,
            ..progress
        },
        Record::Code(unit, _) => Progress {
            letter: Letter::W,
            key: unit,
            block: code_block(progress, unit),
            ..progress
        },
        Record::NoRecord => progress,
    }
}

// How many blocks are needed.
#[tactic(auto, unfolding(crate::specs::Order::blocks_listed))]
fn block_count(progress: Progress) -> usize
    ensures { (result ≡ blocks_listed progress) × (result ≤ 256) }
{
    if rank_of(progress.letter) == 7 && progress.block == 0 {
        256
    } else {
        usize::from(progress.block) + 1
    }
}

// The sizes that the tables need, at the place reached.
#[tactic(auto, unfolding(crate::specs::Order::sizes_listed))]
pub fn sizes_needed(progress: Progress) -> Sizes
    ensures { result ≡ sizes_listed progress }
{
    Sizes {
        classes: 256,
        singles: 256,
        pairs: 256 * progress.leads.count(),
        index: 256,
        blocks: 256 * block_count(progress),
    }
}

// The class of a byte but for whether it may be second.
fn kind_of(progress: Progress, byte: u8) -> u8
    ensures { (result ≡ kind_of progress byte) × (result ≤ 2) }
{
    if is_listed_lead(progress.leads, byte) {
        2
    } else if progress.singles.contains(byte) {
        1
    } else {
        0
    }
}

// The class of a byte, as listed.
pub fn class_of(progress: Progress, byte: u8) -> u8
    ensures { result ≡ class_of progress byte }
{
    let kind = kind_of(progress, byte);
    if progress.trails.contains(byte) {
        4 + kind
    } else {
        kind
    }
}
