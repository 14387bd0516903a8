// What an accepted record changes in the tables.
ghost use Rattle.std.specs.Prelude.{◌≡◌, true, ℕ, ◌+◌, ◌*◌, ◌/◌, ◌%◌, ◌≤◌, ◌<◌, length, set};
ghost use Rattle.codepage.specs.CodePage.{pick};
ghost use Rattle.listing.specs.Order.{is_listed_lead, is_new_high, code_block, sizes_listed, class_of};
ghost use Rattle.listing.specs.Tables.{tables, filled, lead_block, opened_block, change_of};
ghost use Rattle.listing.specs.Steps.{RecordReady};

use crate::{Progress, Record, order};

// A table of bytes is emptied.
fn clear(table: &mut [u8])
    requires { 256 ≤ length table.old }
    ensures { table.new ≡ filled table.old 0 256 0 }
{
    table[..256].fill(0);
}

// A block of 256 units is filled with a value.
fn fill_block(table: &mut [u16], block: usize, value: u16)
    requires { 256 * block + 256 ≤ length table.old }
    ensures { table.new ≡ filled table.old (256 * block) 256 value }
{
    table[256 * block..256 * block + 256].fill(value);
}

// A byte's class, as listed.
fn put_class(next: Progress, byte: u8, classes: &mut [u8])
    requires { 256 ≤ length classes.old }
    ensures { classes.new ≡ set classes.old byte (class_of next byte) }
{
    classes[byte as usize] = order::class_of(next, byte);
}

// The block of a listed lead.
fn lead_block(progress: Progress, lead: u8) -> usize
    requires { is_listed_lead progress.leads lead ≡ true }
    ensures { (result ≡ lead_block progress lead) × (256 * result + 256 ≤ (sizes_listed progress).pairs) }
{
    progress.leads.count_below(lead - 0x80)
}

// `L`: the lead's pairs are emptied.
fn put_lead(next: Progress, byte: u8, classes: &mut [u8], pairs: &mut [u16])
    requires { (256 ≤ length classes.old) × ((sizes_listed next).pairs ≤ length pairs.old) × (is_listed_lead next.leads byte ≡ true) }
    ensures { (classes.new ≡ set classes.old byte (class_of next byte)) × (pairs.new ≡ filled pairs.old (256 * lead_block next byte) 256 0xFFFF) }
{
    put_class(next, byte, classes);
    fill_block(pairs, lead_block(next, byte), 0xFFFF);
}

// `M`
fn put_pair(progress: Progress, code: u16, unit: u16, pairs: &mut [u16])
    requires { ((sizes_listed progress).pairs ≤ length pairs.old) × (is_listed_lead progress.leads (code / 256) ≡ true) }
    ensures { pairs.new ≡ set pairs.old (256 * lead_block progress (code / 256) + code % 256) unit }
{
    let block = lead_block(progress, (code / 256) as u8);
    pairs[256 * block + ((code % 256) as usize)] = unit;
}

// A new block starts empty.
#[tactic(auto, unfolding(crate::specs::Tables::opened_block))]
fn open_block(block: u8, blocks: &mut [u16])
    requires { 256 * block + 256 ≤ length blocks.old }
    ensures { blocks.new ≡ opened_block blocks.old block }
{
    if block != 0 {
        fill_block(blocks, usize::from(block), 0xFFFF);
    }
}

// `W`
fn put_code(progress: Progress, unit: u16, code: u16, index: &mut [u8], blocks: &mut [u16])
    requires { (256 ≤ length index.old) × (256 * code_block progress unit + 256 ≤ length blocks.old) }
    ensures index_after { index.new ≡ pick (is_new_high progress unit) (set index.old (unit / 256) (code_block progress unit)) index.old }
    ensures blocks_after { blocks.new ≡ set (pick (is_new_high progress unit) (opened_block blocks.old (code_block progress unit)) blocks.old) (256 * code_block progress unit + unit % 256) code }
{
    let block = order::code_block(progress, unit);
    if order::is_new_high(progress, unit) {
        index[(unit / 256) as usize] = block;
        open_block(block, blocks);
    }
    blocks[256 * usize::from(block) + (unit % 256) as usize] = code;
}

// `P`: classes, singles, index and the empty block are emptied.
fn empty_tables(classes: &mut [u8], singles: &mut [u16], index: &mut [u8], blocks: &mut [u16])
    requires { (256 ≤ length classes.old) × (256 ≤ length singles.old) × (256 ≤ length index.old) × (256 ≤ length blocks.old) }
    ensures { (classes.new ≡ filled classes.old 0 256 0) × (singles.new ≡ filled singles.old 0 256 0xFFFF) × (index.new ≡ filled index.old 0 256 0) × (blocks.new ≡ filled blocks.old 0 256 0xFFFF) }
{
    clear(classes);
    fill_block(singles, 0, 0xFFFF);
    clear(index);
    fill_block(blocks, 0, 0xFFFF);
}

// What an accepted record changes.
pub fn change(
    progress: Progress,
    next: Progress,
    item: Record,
    classes: &mut [u8],
    singles: &mut [u16],
    pairs: &mut [u16],
    index: &mut [u8],
    blocks: &mut [u16],
)
    requires { RecordReady progress next item classes.old singles.old pairs.old index.old blocks.old }
    ensures { tables classes.new singles.new pairs.new index.new blocks.new ≡ change_of progress item (tables classes.old singles.old pairs.old index.old blocks.old) }
{
    match item {
        Record::Page(_) => empty_tables(classes, singles, index, blocks),
        Record::Single(byte, unit) => {
            put_class(next, byte, classes);
            singles[byte as usize] = unit;
        }
        Record::Lead(byte) => put_lead(next, byte, classes, pairs),
        Record::Trail(byte) => put_class(next, byte, classes),
        Record::Pair(code, unit) => put_pair(progress, code, unit, pairs),
        Record::Code(unit, code) => put_code(progress, unit, code, index, blocks),
        Record::Defaults(_, _) | Record::NoRecord => {}
    }
}
