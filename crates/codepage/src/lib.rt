// A code page as a caller lends it, `TableSet`: three numbers and five tables. (Document 01, "The table set"; docs/RULES.md, "The table set".)
//
// `shape_report` names the first bad place of a table set, or says that its shape is good. Every call of this product that is handed
// tables tests their shape itself, and refuses a bad one with 10: a caller asks for the report to tell a person what is wrong.
//
//     let report = codepage::shape_report(&tables);
//
// The other functions are small questions about a class.

#![tactic(auto)]

pub mod marks;
mod scans;
pub mod shape;

ghost use Rattle.std.specs.Prelude.{◌≡◌, ℕ, ◌≤◌, Ok, length, take};
ghost use Rattle.codepage.specs.CodePage.{page_of, front_page, is_single, is_lead, is_trail, is_known, first_bad, place_below, bad_class, bad_number, sizes_fault, entries_fault, first_fault};

// The numbers of a table set.
#[derive(Clone, Copy)]
pub struct Numbers {
    pub page: u16,
    pub default_byte: u8,
    pub default_unit: u16,
}

// A table set: its numbers, and the tables that its owner lends.
#[derive(Clone, Copy)]
pub struct TableSet<'a> {
    pub numbers: Numbers,
    pub classes: &'a [u8],
    pub singles: &'a [u16],
    pub pairs: &'a [u16],
    pub index: &'a [u8],
    pub blocks: &'a [u16],
}

// How many elements each table has.
#[derive(Clone, Copy)]
pub struct Sizes {
    pub classes: usize,
    pub singles: usize,
    pub pairs: usize,
    pub index: usize,
    pub blocks: usize,
}

// Memory that its owner lends for the tables of a table set to be read into.
#[derive(Drop)]
pub struct TableRoom<'a> {
    pub classes: &'a mut [u8],
    pub singles: &'a mut [u16],
    pub pairs: &'a mut [u16],
    pub index: &'a mut [u8],
    pub blocks: &'a mut [u16],
}

impl TableRoom<'_> {
    // The table set whose tables are the fronts of the memory; of a table that asks for more than there is, all of it.
    pub fn table_set(&self, numbers: Numbers, sizes: Sizes) -> TableSet<'_>
        ensures { page_of result ≡ front_page numbers sizes self.now }
    {
        TableSet {
            numbers,
            classes: front(self.classes, sizes.classes),
            singles: front(self.singles, sizes.singles),
            pairs: front(self.pairs, sizes.pairs),
            index: front(self.index, sizes.index),
            blocks: front(self.blocks, sizes.blocks),
        }
    }
}

// The first elements of a table, or all where it has fewer.
fn front<T>(table: &[T], size: usize) -> &[T]
    ensures { result.now ≡ take size table.now }
{
    &table[..size.min(table.len())]
}

// The first bad place of a table set whose shape is not good.
#[derive(Clone, Copy)]
pub enum Fault {
    // The page is 0.
    Page,
    // A table has another size than it must have.
    ClassesSize,
    SinglesSize,
    PairsSize,
    IndexSize,
    BlocksSize,
    // The first byte whose class is not one of 0, 1, 2, 4, 5, 6.
    Class(usize),
    // The first lead byte below 80.
    Lead(usize),
    // The first index number that names no block.
    Number(usize),
}

// Why a code has no character.
#[derive(Clone, Copy)]
pub enum Kind {
    UndefinedSingle,
    UndefinedPair,
    Invalid,
}

// What a table says of a code: its character (in encoding, of a unit: its code), or why it has none.
pub type Lookup = Result<u16, Kind>;

// Whether a class is that of a lead byte.
pub fn is_lead_class(class: u8) -> bool
    ensures { result ≡ is_lead class }
{
    if class == 2 {
        return true;
    }
    class == 6
}

// Whether a class is that of a single byte.
pub fn is_single_class(class: u8) -> bool
    ensures { result ≡ is_single class }
{
    if class == 1 {
        return true;
    }
    class == 5
}

// Whether a class is that of a byte that may be second.
pub fn is_trail_class(class: u8) -> bool
    ensures { result ≡ is_trail class }
{
    4 <= class
}

// Whether a class is one that a byte can have.
fn is_known_class(class: u8) -> bool
    ensures { result ≡ is_known class }
{
    if class <= 2 {
        return true;
    }
    if class < 4 {
        return false;
    }
    class <= 6
}

// Whether a byte's class is unknown or that of a lead byte below 80.
fn is_bad_class(byte: usize, class: u8) -> bool
    ensures { result ≡ bad_class byte class }
{
    if !is_known_class(class) {
        return true;
    }
    if byte < 0x80 {
        return is_lead_class(class);
    }
    false
}

// The first byte with a bad class, if there is one.
fn first_bad_class(classes: &[u8]) -> Option<usize>
    requires { length classes.now ≡ 256 }
    ensures { result ≡ place_below 256 (first_bad bad_class 0 classes.now) }
{
    for (byte, class) in classes.iter().enumerate() {
        if is_bad_class(byte, *class) {
            return Some(byte);
        }
    }
    None
}

// The first index entry that names none of `count` blocks, if there is one.
fn first_bad_number(index: &[u8], count: usize) -> Option<usize>
    requires { length index.now ≡ 256 }
    ensures { result ≡ place_below 256 (first_bad (bad_number count) 0 index.now) }
{
    for (place, number) in index.iter().enumerate() {
        if count <= (*number as usize) {
            return Some(place);
        }
    }
    None
}

// The first fault of the page and the sizes, or good.
fn sizes_report(tables: &TableSet) -> Result<(), Fault>
    ensures { result ≡ sizes_fault (page_of tables.now) (Ok tt) }
{
    let TableSet {
        numbers,
        classes,
        singles,
        pairs,
        index,
        blocks,
    } = *tables;
    if numbers.page == 0 {
        return Err(Fault::Page);
    }
    if classes.len() != 256 {
        return Err(Fault::ClassesSize);
    }
    if singles.len() != 256 {
        return Err(Fault::SinglesSize);
    }
    if pairs.len() != 256 * scans::leads_below(classes, 256) {
        return Err(Fault::PairsSize);
    }
    if index.len() != 256 {
        return Err(Fault::IndexSize);
    }
    if blocks.len() % 256 != 0 {
        return Err(Fault::BlocksSize);
    }
    let count = blocks.len() / 256;
    if count < 1 {
        return Err(Fault::BlocksSize);
    }
    if 256 < count {
        return Err(Fault::BlocksSize);
    }
    Ok(())
}

// The first bad class or low lead, then the first index number that names none of `count` blocks, or good.
fn entries_report(classes: &[u8], index: &[u8], count: usize) -> Result<(), Fault>
    requires { (length classes.now ≡ 256) × (length index.now ≡ 256) }
    ensures { result ≡ entries_fault classes.now index.now count }
{
    if let Some(byte) = first_bad_class(classes) {
        if is_known_class(classes[byte]) {
            return Err(Fault::Lead(byte));
        }
        return Err(Fault::Class(byte));
    }
    if let Some(place) = first_bad_number(index, count) {
        return Err(Fault::Number(place));
    }
    Ok(())
}

// The shape report.
pub fn shape_report(tables: &TableSet) -> Result<(), Fault>
    ensures { result ≡ first_fault (page_of tables.now) }
{
    sizes_report(tables)?;
    entries_report(tables.classes, tables.index, tables.blocks.len() / 256)
}
