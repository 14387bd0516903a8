// The tables of a page whose shape was found good, as codes are looked up in them. Whoever makes one of these proves what it needs of
// the shape; the functions that take it ask nothing more.
ghost use Rattle.std.specs.Prelude.{◌≡◌, ℕ, ◌+◌, ◌*◌, ◌≤◌, length};
ghost use Rattle.codepage.specs.CodePage.{entry_at, leads};
ghost use Rattle.codepage.specs.Marks.{NoLowLead};
ghost use Rattle.codepage_lookup.specs.Profile.{KnownClasses, LeadsAt};

use crate::profile::Leads;

// What bytes are read by: the class and the character of each byte, and a block of characters for each lead byte.
#[derive(Clone, Copy)]
pub struct ByteTables<'a> {
    pub classes: &'a [u8],
    pub singles: &'a [u16],
    pub pairs: &'a [u16],
    ghost all_classes: { length classes.now ≡ 256 },
    ghost all_singles: { length singles.now ≡ 256 },
    ghost all_pairs: { length pairs.now ≡ 256 * leads classes.now },
    ghost known: { KnownClasses classes.now },
    ghost no_low_lead: { NoLowLead classes.now },
}

// The same, and the lead bytes, by which the block of one is found.
#[derive(Clone, Copy)]
pub struct LeadTables<'a> {
    pub tables: ByteTables<'a>,
    pub leads: Leads,
    ghost leads_at: { LeadsAt tables.classes.now leads },
}

// What units are coded by: for each high half the number of a block, and blocks of codes.
#[derive(Clone, Copy)]
pub struct UnitTables<'a> {
    pub index: &'a [u8],
    pub blocks: &'a [u16],
    ghost all_index: { length index.now ≡ 256 },
    ghost by_index: { (high : ℕ) → 256 * entry_at index.now high + 256 ≤ length blocks.now },
}
