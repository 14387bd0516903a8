// The records of a table set, in the listing's order.
ghost use Rattle.std.specs.Prelude.{◌≡◌, true, ℕ, ◌+◌, ◌*◌, ◌≤◌, ◌<◌, length};
ghost use Rattle.codepage.specs.CodePage.{page_of, entry_at, leads_below, GoodShape};
ghost use Rattle.codepage_lookup.specs.Tables.{LeadOf};
ghost use Rattle.lister.specs.Lister.{single_at, lead_at, trail_at, pair_at, code_at, record_at, is_record, next_place};

use codepage::TableSet;
use codepage_lookup::tables::ByteTables;
use listing::{Record, form};

// `P`, `D`, 256 places for each of `S`, `L` and `T`, 65,536 for each of `M` and `W`.
pub const PLACES: usize = 131842;

// Whether a place has a record.
fn is_record(item: Record) -> bool
    ensures { result ≡ is_record item }
{
    !matches!(item, Record::NoRecord)
}

// The record `S` of a byte, if it is a single.
#[tactic(auto, unfolding(crate::specs::Lister::single_at))]
fn single_at(classes: &[u8], singles: &[u16], byte: u8) -> Record
    requires { (length classes.now ≡ 256) × (length singles.now ≡ 256) }
    ensures { result ≡ single_at classes.now singles.now byte }
{
    if codepage::is_single_class(classes[byte as usize]) {
        Record::Single(byte, singles[byte as usize])
    } else {
        Record::NoRecord
    }
}

// The record `L` of a byte, if it is a lead.
#[tactic(auto, unfolding(crate::specs::Lister::lead_at))]
fn lead_at(classes: &[u8], byte: u8) -> Record
    requires { length classes.now ≡ 256 }
    ensures { result ≡ lead_at classes.now byte }
{
    if codepage::is_lead_class(classes[byte as usize]) {
        Record::Lead(byte)
    } else {
        Record::NoRecord
    }
}

// The record `T` of a byte, if it may be second.
#[tactic(auto, unfolding(crate::specs::Lister::trail_at))]
fn trail_at(classes: &[u8], byte: u8) -> Record
    requires { length classes.now ≡ 256 }
    ensures { result ≡ trail_at classes.now byte }
{
    if codepage::is_trail_class(classes[byte as usize]) {
        Record::Trail(byte)
    } else {
        Record::NoRecord
    }
}

// The entry of a lead's pair with a second byte.
fn pair_entry(tables: &ByteTables, lead: u8, trail: u8) -> u16
    requires { LeadOf tables.now lead }
    ensures { result ≡ entry_at tables.now.pairs.now (256 * leads_below tables.now.classes.now lead + trail) }
{
    let block = tables.with_leads().block_of(lead);
    tables.pairs[256 * block + (trail as usize)]
}

// The record of a code of two bytes.
#[tactic(auto, unfolding(crate::specs::Lister::pair_at))]
fn pair_at(tables: &ByteTables, code: u16) -> Record
    ensures { result ≡ pair_at tables.now.classes.now tables.now.pairs.now code }
{
    let lead = (code / 256) as u8;
    let trail = (code % 256) as u8;
    if codepage::is_lead_class(tables.classes[lead as usize])
        && codepage::is_trail_class(tables.classes[trail as usize])
    {
        let unit = pair_entry(tables, lead, trail);
        form::unless_none(unit, Record::Pair(code, unit))
    } else {
        Record::NoRecord
    }
}

// The record `W` of a unit, if it has a code.
#[tactic(auto, unfolding(crate::specs::Lister::code_at))]
fn code_at(index: &[u8], blocks: &[u16], unit: u16) -> Record
    requires index_len { length index.now ≡ 256 }
    requires by_index { (high : ℕ) → high < 256 → 256 * entry_at index.now high + 256 ≤ length blocks.now }
    ensures { result ≡ code_at index.now blocks.now unit }
{
    let block = usize::from(index[(unit / 256) as usize]);
    let code = blocks[256 * block + (unit % 256) as usize];
    form::unless_none(code, Record::Code(unit, code))
}

// The record of a place.
#[tactic(auto, unfolding(crate::specs::Lister::record_at))]
pub fn record_at(tables: &TableSet, place: usize) -> Record
    requires good_shape { GoodShape (page_of tables.now) }
    requires place_bound { place < 131842 }
    ensures { result ≡ record_at (page_of tables.now) place }
{
    match place {
        0 => Record::Page(tables.numbers.page),
        1 => Record::Defaults(tables.numbers.default_byte, tables.numbers.default_unit),
        2..258 => single_at(tables.classes, tables.singles, (place - 2) as u8),
        258..514 => lead_at(tables.classes, (place - 258) as u8),
        514..770 => trail_at(tables.classes, (place - 514) as u8),
        770..66306 => {
            let bytes = ByteTables {
                classes: tables.classes,
                singles: tables.singles,
                pairs: tables.pairs,
            };
            pair_at(&bytes, (place - 770) as u16)
        }
        _ => code_at(tables.index, tables.blocks, (place - 66306) as u16),
    }
}

// The first place from a place on that has a record, or a place behind all.
pub fn next_place(tables: &TableSet, from: usize) -> usize
    requires { GoodShape (page_of tables.now) }
    ensures { result ≡ next_place (page_of tables.now) from }
{
    for place in from..PLACES {
        if is_record(record_at(tables, place)) {
            return place;
        }
    }
    from.max(PLACES)
}
