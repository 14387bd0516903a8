// Inner: what the tables say of a code, looked up by our own crates on tables whose shape was found good. No public calls.
// (Document 01, "Reading one code from bytes" and "Reading one unit for bytes"; docs/RULES.md, "Reading bytes", "Reading units".)

#![tactic(auto)]

pub mod profile;
pub mod tables;
pub mod words;

ghost use Rattle.std.specs.Prelude.{◌≡◌, true, List, ℕ, ◌+◌, ◌*◌, ◌≤◌, length};
ghost use Rattle.codepage.specs.CodePage.{entry_at, is_known, is_lead, leads_below};
ghost use Rattle.codepage.specs.Reading.{lookup, byte_alone, byte_pair, is_high, is_low, is_surrogate, unit_alone, decoder, encoder, settled};
ghost use Rattle.codepage_lookup.specs.Profile.{LeadsAt, SettledAs, unit_entry};
ghost use Rattle.codepage_lookup.specs.Tables.{byte_reader, unit_reader, LeadOf};

use codepage::{Kind, Lookup};
use profile::Leads;
use tables::{ByteTables, LeadTables, UnitTables};

// What an entry says of a code.
fn found(kind: Kind, value: u16) -> Lookup
    ensures { result ≡ lookup kind value }
{
    if value == 0xFFFF {
        Err(kind)
    } else {
        Ok(value)
    }
}

// Whether a byte is a lead byte.
pub fn is_lead(classes: &[u8], byte: u8) -> bool
    requires { length classes.now ≡ 256 }
    ensures { result ≡ is_lead (entry_at classes.now byte) }
{
    codepage::is_lead_class(classes[byte as usize])
}

// Whether a known class is that of a lead byte: its bit 1 tells.
pub fn known_lead(class: u8) -> bool
    requires { is_known class ≡ true }
    ensures { result ≡ is_lead class }
{
    class & 2 == 2
}

// A byte alone.
pub fn byte_alone(classes: &[u8], singles: &[u16], byte: u8) -> Lookup
    requires { (length classes.now ≡ 256) × (length singles.now ≡ 256) }
    ensures { result ≡ byte_alone classes.now singles.now byte }
{
    let at = byte as usize;
    if codepage::is_single_class(classes[at]) {
        return found(Kind::UndefinedSingle, singles[at]);
    }
    Err(Kind::Invalid)
}

// The entry of a lead byte and the byte after it: in the lead's block at the second byte.
fn pair_entry(pairs: &[u16], block: usize, byte: u8) -> u16
    requires { 256 * block + 256 ≤ length pairs.now }
    ensures { result ≡ entry_at pairs.now (256 * block + byte) }
{
    pairs[256 * block + (byte as usize)]
}

// The code of a unit that waited, settled by the one after it: what it means, and how many units it takes after the first, 0 or 1.
#[derive(Clone, Copy)]
pub struct SettledCode {
    pub means: Lookup,
    pub more: usize,
}

// A lead byte, settled by the byte after it. A byte below 80 that may not be second is not taken with it.
pub fn settle(classes: &[u8], pairs: &[u16], leads: Leads, lead: u8, byte: u8) -> SettledCode
    requires classes_len { (length classes.now ≡ 256) × (is_lead (entry_at classes.now lead) ≡ true) × (256 * leads_below classes.now lead + 256 ≤ length pairs.now) }
    requires leads_at { LeadsAt classes.now leads }
    ensures { (singles : List ℕ) → SettledAs (settled (decoder classes.now singles pairs.now) lead byte) result }
{
    let at = byte as usize;
    let second = codepage::is_trail_class(classes[at]);
    if second {
        let block = profile::block_counted(leads, lead);
        let means = found(Kind::UndefinedPair, pair_entry(pairs, block, byte));
        return SettledCode { means, more: 1 };
    }
    let means = Err(Kind::Invalid);
    if byte < 0x80 {
        return SettledCode { means, more: 0 };
    }
    SettledCode { means, more: 1 }
}

// The character of a byte alone, or FFFF where it has none.
pub fn single_unit(classes: &[u8], singles: &[u16], byte: u8) -> u16
    requires { (length classes.now ≡ 256) × (length singles.now ≡ 256) }
    ensures { (result ≡ 0xFFFF → ⊥) → byte_alone classes.now singles.now byte ≡ Ok result }
{
    let at = byte as usize;
    if codepage::is_single_class(classes[at]) {
        return singles[at];
    }
    0xFFFF
}

// The character of a lead byte and the byte after it, or FFFF where they have none. `class` is that of the byte.
fn known_pair_unit(
    class: u8,
    classes: &[u8],
    pairs: &[u16],
    leads: Leads,
    lead: u8,
    byte: u8,
) -> u16
    requires classes_len { (length classes.now ≡ 256) × (is_lead (entry_at classes.now lead) ≡ true) × (256 * leads_below classes.now lead + 256 ≤ length pairs.now) }
    requires leads_at { LeadsAt classes.now leads × (class ≡ entry_at classes.now byte) }
    ensures { (result ≡ 0xFFFF → ⊥) → byte_pair classes.now pairs.now lead byte ≡ Ok result }
{
    if codepage::is_trail_class(class) {
        let block = profile::block_of(classes, leads, lead);
        return pair_entry(pairs, block, byte);
    }
    0xFFFF
}

// The same, with the class looked up.
pub fn pair_unit(classes: &[u8], pairs: &[u16], leads: Leads, lead: u8, byte: u8) -> u16
    requires classes_len { (length classes.now ≡ 256) × (is_lead (entry_at classes.now lead) ≡ true) × (256 * leads_below classes.now lead + 256 ≤ length pairs.now) }
    requires leads_at { LeadsAt classes.now leads }
    ensures { (result ≡ 0xFFFF → ⊥) → byte_pair classes.now pairs.now lead byte ≡ Ok result }
{
    known_pair_unit(classes[byte as usize], classes, pairs, leads, lead, byte)
}

// Whether a unit is a high surrogate.
pub fn is_high(unit: u16) -> bool
    ensures { result ≡ is_high unit }
{
    if unit < 0xD800 {
        return false;
    }
    unit <= 0xDBFF
}

// Whether a unit is a low surrogate.
fn is_low(unit: u16) -> bool
    ensures { result ≡ is_low unit }
{
    if unit < 0xDC00 {
        return false;
    }
    unit <= 0xDFFF
}

// Whether a unit is a surrogate.
fn is_surrogate(unit: u16) -> bool
    ensures { result ≡ is_surrogate unit }
{
    if unit < 0xD800 {
        return false;
    }
    unit <= 0xDFFF
}

// The entry of a unit: in the block of its high half at its low half.
fn unit_entry(index: &[u8], blocks: &[u16], unit: u16) -> u16
    requires index_len { length index.now ≡ 256 }
    requires by_index { (high : ℕ) → 256 * entry_at index.now high + 256 ≤ length blocks.now }
    ensures { result ≡ unit_entry index.now blocks.now unit }
{
    let high = (unit / 256) as usize;
    let low = (unit % 256) as usize;
    let block = index[high] as usize;
    blocks[256 * block + low]
}

// A unit alone.
pub fn unit_alone(index: &[u8], blocks: &[u16], unit: u16) -> Lookup
    requires index_len { length index.now ≡ 256 }
    requires by_index { (high : ℕ) → 256 * entry_at index.now high + 256 ≤ length blocks.now }
    ensures { result ≡ unit_alone index.now blocks.now unit }
{
    if is_surrogate(unit) {
        return Err(Kind::Invalid);
    }
    found(Kind::UndefinedSingle, unit_entry(index, blocks, unit))
}

// A high surrogate, settled by the unit after it: with a low one it is one undefined single, else it is invalid alone.
pub fn settle_high(unit: u16) -> SettledCode
    ensures { (index blocks : List ℕ) (high : ℕ) → is_high high ≡ true → SettledAs (settled (encoder index blocks) high unit) result }
{
    if is_low(unit) {
        let means = Err(Kind::UndefinedSingle);
        return SettledCode { means, more: 1 };
    }
    let means = Err(Kind::Invalid);
    SettledCode { means, more: 0 }
}

impl ByteTables<'_> {
    // The class of a byte.
    pub fn class_of(&self, byte: u8) -> u8
        ensures { result ≡ entry_at self.now.classes.now byte }
    {
        self.classes[byte as usize]
    }

    // Whether a byte is a lead byte.
    pub fn is_lead(&self, byte: u8) -> bool
        ensures { result ≡ is_lead (entry_at self.now.classes.now byte) }
    {
        codepage::is_lead_class(self.class_of(byte))
    }

    // The same, by the bit of its class that tells: every class is known.
    pub fn is_known_lead(&self, byte: u8) -> bool
        ensures { result ≡ is_lead (entry_at self.now.classes.now byte) }
    {
        known_lead(self.class_of(byte))
    }

    // A byte alone.
    pub fn byte_alone(&self, byte: u8) -> Lookup
        ensures { result ≡ byte_alone self.now.classes.now self.now.singles.now byte }
    {
        byte_alone(self.classes, self.singles, byte)
    }

    // The character of a byte alone, or FFFF where it has none.
    pub fn single_unit(&self, byte: u8) -> u16
        ensures { (result ≡ 0xFFFF → ⊥) → byte_alone self.now.classes.now self.now.singles.now byte ≡ Ok result }
    {
        single_unit(self.classes, self.singles, byte)
    }

    // The same of a byte whose class is known: its bit 0 tells a single byte.
    pub fn known_single_unit(&self, class: u8, byte: u8) -> u16
        requires { is_known class ≡ true }
        ensures { (result ≡ 0xFFFF → ⊥) → (classes : List ℕ) → class ≡ entry_at classes byte → byte_alone classes self.now.singles.now byte ≡ Ok result }
    {
        if class & 1 == 1 {
            return self.singles[byte as usize];
        }
        0xFFFF
    }
}

impl LeadTables<'_> {
    // A lead byte, settled by the byte after it.
    pub fn settle(&self, lead: u8, byte: u8) -> SettledCode
        requires { LeadOf self.now.tables lead }
        ensures { SettledAs (settled (byte_reader self.now.tables) lead byte) result }
    {
        let tables = self.tables;
        settle(tables.classes, tables.pairs, self.leads, lead, byte)
    }

    // The character of a lead byte and the byte after it, or FFFF where they have none. `class` is that of the byte.
    pub fn known_pair_unit(&self, class: u8, lead: u8, byte: u8) -> u16
        requires is_lead { LeadOf self.now.tables lead }
        requires class_value { class ≡ entry_at self.now.tables.classes.now byte }
        ensures { (result ≡ 0xFFFF → ⊥) → byte_pair self.now.tables.classes.now self.now.tables.pairs.now lead byte ≡ Ok result }
    {
        let tables = self.tables;
        known_pair_unit(class, tables.classes, tables.pairs, self.leads, lead, byte)
    }

    // The same, with the class looked up.
    pub fn pair_unit(&self, lead: u8, byte: u8) -> u16
        requires { LeadOf self.now.tables lead }
        ensures { (result ≡ 0xFFFF → ⊥) → byte_pair self.now.tables.classes.now self.now.tables.pairs.now lead byte ≡ Ok result }
    {
        let tables = self.tables;
        self.known_pair_unit(tables.class_of(byte), lead, byte)
    }
}

impl UnitTables<'_> {
    // The entry of a unit: in the block of its high half at its low half.
    fn entry(&self, unit: u16) -> u16
        ensures { result ≡ unit_entry self.now.index.now self.now.blocks.now unit }
    {
        unit_entry(self.index, self.blocks, unit)
    }

    // The code of a unit, or FFFF where it has none. Asked of a surrogate only where its entry is none: see `profile`.
    pub fn code_of(&self, unit: u16) -> u16
        requires { is_surrogate unit ≡ true → unit_entry self.now.index.now self.now.blocks.now unit ≡ 0xFFFF }
        ensures { (result ≡ 0xFFFF → ⊥) → unit_alone self.now.index.now self.now.blocks.now unit ≡ Ok result }
    {
        self.entry(unit)
    }

    // A unit alone.
    pub fn unit_alone(&self, unit: u16) -> Lookup
        ensures { result ≡ unit_alone self.now.index.now self.now.blocks.now unit }
    {
        unit_alone(self.index, self.blocks, unit)
    }
}
