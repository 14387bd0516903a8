// What a call finds out about a page once, so that its loops ask less of each code. These are no public calls.
ghost use Rattle.std.specs.Prelude.{◌≡◌, true, false, ℕ, ◌+◌, ◌*◌, ◌≤◌, ◌<◌, length};
ghost use Rattle.std.specs.Int.Count.{ones, count_trailing_zeros};
ghost use Rattle.codepage.specs.CodePage.{entry_at, is_single, is_lead, leads_below};
ghost use Rattle.codepage.specs.Reading.{byte_alone, unit_alone};
ghost use Rattle.codepage.specs.Marks.{NoLowLead};
ghost use Rattle.codepage_lookup.specs.Profile.{lead_bits, ones_below, block_of, side_by_side, KnownClasses, ClearPage, PlainPage, MixedPage, LeadsAt, NoCodes};
ghost use Rattle.codepage_lookup.specs.Tables.{LeadOf, OnlySingles};

use crate::tables::{ByteTables, LeadTables, UnitTables};
use crate::words;
use codepage::{Lookup, marks};

// The lead bytes of a page as bits: byte 80 is the lowest of `low`, C0 the lowest of `high`.
#[derive(Clone, Copy)]
pub struct Leads {
    pub low: u64,
    pub high: u64,
}

// 0 for the class of a single byte, else another number.
fn single_mark(class: u8) -> u8
    ensures { result ≡ 0 → is_single class ≡ true }
{
    (class & 0xFB) ^ 1
}

// Whether the bytes below `to` are all single.
fn singles_below(classes: &[u8], to: usize) -> bool
    requires { to ≤ length classes.now }
    ensures { result ≡ true → (byte : ℕ) → byte < to → is_single (entry_at classes.now byte) ≡ true }
{
    let mut mark: u8 = 0;
    for i in 0..to {
        mark = marks::larger(mark, single_mark(classes[i]));
    }
    mark == 0
}

// Whether 128 entries from a place on are 0, 1, 2 and so on.
fn counts_up(table: &[u16], from: usize) -> bool
    requires { from + 128 ≤ length table.now }
    ensures { result ≡ true → (k : ℕ) → k < 128 → entry_at table.now (from + k) ≡ k }
{
    let mut mark: u16 = 0;
    for i in 0..128 {
        mark = mark | (table[from + (i as usize)] ^ i);
    }
    mark == 0
}

// Whether every byte below 80 is a single whose character is itself.
fn plain_bytes(classes: &[u8], singles: &[u16]) -> bool
    requires { (length classes.now ≡ 256) × (length singles.now ≡ 256) }
    ensures { result ≡ true → (byte : ℕ) → byte < 0x80 → (is_lead (entry_at classes.now byte) ≡ false) × (byte_alone classes.now singles.now byte ≡ Ok byte) }
{
    if !singles_below(classes, 128) {
        return false;
    }
    counts_up(singles, 0)
}

// 0 for an entry that a byte of a class may have among the singles: any for a single, none for another. Else another number.
fn entry_mark(class: u8, unit: u16) -> u16
    ensures { result ≡ 0 → (unit ≡ 0xFFFF → ⊥) → is_single class ≡ true }
{
    if class & 0xFB == 1 {
        return 0;
    }
    unit ^ 0xFFFF
}

// Whether no byte from 80 on but a single has an entry among the singles.
fn clear_from_80(classes: &[u8], singles: &[u16]) -> bool
    requires { (length classes.now ≡ 256) × (length singles.now ≡ 256) }
    ensures { result ≡ true → (byte : ℕ) → 0x80 ≤ byte → byte < 256 → (entry_at singles.now byte ≡ 0xFFFF → ⊥) → is_single (entry_at classes.now byte) ≡ true }
{
    let mut mark: u16 = 0;
    for i in 128..256 {
        mark = mark | entry_mark(classes[i], singles[i]);
    }
    mark == 0
}

// Whether every byte below 80 is a single whose character is itself, and the singles alone tell which bytes have a character alone.
pub fn mixed_page(classes: &[u8], singles: &[u16]) -> bool
    requires { (length classes.now ≡ 256) × (length singles.now ≡ 256) }
    ensures byte_value { result ≡ true → (byte : ℕ) → byte < 0x80 → (is_lead (entry_at classes.now byte) ≡ false) × (byte_alone classes.now singles.now byte ≡ Ok byte) }
    ensures clear_page { result ≡ true → ClearPage classes.now singles.now }
{
    if !plain_bytes(classes, singles) {
        return false;
    }
    clear_from_80(classes, singles)
}

// Whether the 256 entries of a block are all none.
fn is_empty(blocks: &[u16], from: usize) -> bool
    requires { from + 256 ≤ length blocks.now }
    ensures { result ≡ true → (k : ℕ) → k < 256 → entry_at blocks.now (from + k) ≡ 0xFFFF }
{
    let mut mark: u16 = 0xFFFF;
    for i in 0..256 {
        mark = mark & blocks[from + i];
    }
    mark == 0xFFFF
}

// Whether a block is empty, where another is known to be: they are mostly one.
fn is_empty_too(blocks: &[u16], known: u8, block: u8) -> bool
    requires block_in_bounds { 256 * block + 256 ≤ length blocks.now }
    requires by_index { (k : ℕ) → k < 256 → entry_at blocks.now (256 * known + k) ≡ 0xFFFF }
    ensures { result ≡ true → (k : ℕ) → k < 256 → entry_at blocks.now (256 * block + k) ≡ 0xFFFF }
{
    if block == known {
        return true;
    }
    is_empty(blocks, 256 * (block as usize))
}

// Whether no surrogate has an entry that is a code: the blocks of the high halves D8 to DF are empty.
fn no_surrogate_codes(index: &[u8], blocks: &[u16]) -> bool
    requires index_len { length index.now ≡ 256 }
    requires by_index { (high : ℕ) → 256 * entry_at index.now high + 256 ≤ length blocks.now }
    ensures { result ≡ true → (half : ℕ) → 0xD8 ≤ half → half ≤ 0xDF → (k : ℕ) → k < 256 → entry_at blocks.now (256 * entry_at index.now half + k) ≡ 0xFFFF }
{
    let first = index[0xD8];
    if !is_empty(blocks, 256 * (first as usize)) {
        return false;
    }
    for half in 0xD9..0xE0 {
        if !is_empty_too(blocks, first, index[half]) {
            return false;
        }
    }
    true
}

// Whether `code_of` may be asked of every unit of a piece, whose units are not over `bound`.
pub fn codes_asked(bound: u16, index: &[u8], blocks: &[u16], piece: &[u16]) -> bool
    requires index_len { length index.now ≡ 256 }
    requires by_index { (high : ℕ) → 256 * entry_at index.now high + 256 ≤ length blocks.now }
    requires by_index_2 { (k : ℕ) → entry_at piece.now k ≤ bound }
    ensures { result ≡ true → NoCodes index.now blocks.now piece.now }
{
    if bound < 0xD800 {
        return true;
    }
    no_surrogate_codes(index, blocks)
}

// The lead bytes among eight, as bits: the first is the lowest. Bit 1 of a known class tells a lead byte; the product brings the eight
// bits, four and four first, side by side.
fn eight_bits(classes: &[u8], from: usize) -> u64
    requires classes_len { (length classes.now ≡ 256) × (from + 8 ≤ 256) }
    requires known_classes { KnownClasses classes.now }
    ensures { result ≡ lead_bits classes.now from 8 }
{
    let word = words::word_at(classes, from);
    let marks = (word & 0x0202020202020202) >> 1;
    let folded = (marks | (marks >> 28)) & 0x11111111;
    ((folded * 0x204081) >> 21) & 0xFF
}

// The lead bytes of a page, met from the last on.
pub fn leads_of(classes: &[u8]) -> Leads
    requires classes_len { length classes.now ≡ 256 }
    requires known_classes { KnownClasses classes.now × NoLowLead classes.now }
    ensures { LeadsAt classes.now result }
{
    let mut low: u64 = 0;
    let mut high: u64 = 0;
    let mut i: usize = 64;
    while 0 < i {
        i -= 8;
        low = (low << 8) + eight_bits(classes, 0x80 + i);
        high = (high << 8) + eight_bits(classes, 0xC0 + i);
    }
    Leads { low, high }
}

// How many ones a word has.
fn ones_of(word: u64) -> usize
    ensures { (result ≡ ones word) × (result ≤ 64) }
{
    u64::count_ones(word) as usize
}

// How many ones of a word stand below a place: those at it and above are shifted out.
fn ones_below(word: u64, place: u8) -> usize
    requires { place < 64 }
    ensures { (result ≡ ones_below word place) × (result ≤ 64) }
{
    let below = (word << (63 - place)) << 1;
    ones_of(below)
}

// The block of a lead byte: the number of ones below its own.
pub fn block_counted(leads: Leads, lead: u8) -> usize
    requires { 0x80 ≤ lead }
    ensures { result ≡ block_of leads lead }
{
    if lead < 0xC0 {
        return ones_below(leads.low, lead - 0x80);
    }
    ones_of(leads.low) + ones_below(leads.high, lead - 0xC0)
}

// Whether the ones of a word stand side by side.
fn is_run(word: u64) -> bool
    ensures { result ≡ side_by_side word }
{
    if word == 0 {
        return true;
    }
    u64::leading_zeros(word) + u64::count_ones(word) + u64::trailing_zeros(word) == 64
}

// Whether those of both words do.
fn are_runs(leads: Leads) -> bool
    ensures { result ≡ true → (side_by_side leads.low ≡ true) × (side_by_side leads.high ≡ true) }
{
    if !is_run(leads.low) {
        return false;
    }
    is_run(leads.high)
}

// The byte of the first one of a word, whose lowest bit is that of the byte `from`; 64 bytes on where it has none.
fn first_from(from: usize, word: u64) -> usize
    requires { from ≤ 0xC0 }
    ensures { result ≡ from + count_trailing_zeros 64 word }
{
    from + (u64::trailing_zeros(word) as usize)
}

// The block of a lead byte where the ones of both words stand side by side: its distance to the first lead, less the gap between the
// words for a lead from C0 on. Bit 6 of a lead tells its word, so that nothing is asked.
fn block_in_runs(classes: &[u8], leads: Leads, lead: u8) -> usize
    requires classes_len { (length classes.now ≡ 256) × (is_lead (entry_at classes.now lead) ≡ true) × LeadsAt classes.now leads }
    requires low_value { (side_by_side leads.low ≡ true) × (side_by_side leads.high ≡ true) }
    ensures { result ≡ leads_below classes.now lead }
{
    let low = first_from(0x80, leads.low);
    let high = first_from(0xC0, leads.high) - ones_of(leads.low);
    let byte = lead as usize;
    byte - low - (high - low) * (byte / 64 % 2)
}

// The block of a lead byte, in loops: the compiler asks once whether there are gaps. `classes` serve the contract alone.
pub fn block_of(classes: &[u8], leads: Leads, lead: u8) -> usize
    requires { (length classes.now ≡ 256) × (is_lead (entry_at classes.now lead) ≡ true) × LeadsAt classes.now leads }
    ensures { result ≡ leads_below classes.now lead }
{
    if are_runs(leads) {
        return block_in_runs(classes, leads, lead);
    }
    block_counted(leads, lead)
}

impl<'a> ByteTables<'a> {
    // Whether every byte is single. Where the first lead bytes of most pages stand is looked at first.
    pub fn only_singles(&self) -> bool
        ensures { result ≡ true → OnlySingles self.now }
    {
        if !singles_below(&self.classes[128..192], 64) {
            return false;
        }
        singles_below(self.classes, 256)
    }

    // Whether every byte below 80 is a single whose character is itself.
    pub fn keeps_plain(&self) -> bool
        ensures { result ≡ true → PlainPage self.now.classes.now self.now.singles.now }
    {
        plain_bytes(self.classes, self.singles)
    }

    // Whether it is so, and the singles alone tell which bytes have a character alone.
    pub fn is_mixed(&self) -> bool
        ensures { result ≡ true → MixedPage self.now.classes.now self.now.singles.now }
    {
        mixed_page(self.classes, self.singles)
    }

    // The tables with the lead bytes.
    pub fn with_leads(&self) -> LeadTables<'a>
        ensures { result.tables ≡ self.now }
    {
        let leads = leads_of(self.classes);
        LeadTables {
            tables: *self,
            leads,
        }
    }
}

impl LeadTables<'_> {
    // The block of a lead byte, in loops: the compiler asks once whether there are gaps.
    pub fn block_of(&self, lead: u8) -> usize
        requires { LeadOf self.now.tables lead }
        ensures { result ≡ leads_below self.now.tables.classes.now lead }
    {
        block_of(self.tables.classes, self.leads, lead)
    }
}

impl UnitTables<'_> {
    // Whether the code of every unit below 80 is itself.
    pub fn keeps_plain(&self) -> bool
        ensures { result ≡ true → (unit : ℕ) → unit < 0x80 → unit_alone self.now.index.now self.now.blocks.now unit ≡ Ok unit }
    {
        counts_up(self.blocks, 256 * (self.index[0] as usize))
    }

    // Whether `code_of` may be asked of every unit of a piece, whose units are not over `bound`.
    pub fn may_ask(&self, bound: u16, piece: &[u16]) -> bool
        requires { (k : ℕ) → entry_at piece.now k ≤ bound }
        ensures { result ≡ true → NoCodes self.now.index.now self.now.blocks.now piece.now }
    {
        codes_asked(bound, self.index, self.blocks, piece)
    }
}
