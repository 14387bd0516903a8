// A table image, a table set as bytes, read into lent tables. (docs/CONSOLE.md, "A table image".) A tool for programs that take their
// tables from a file: the box has its tables in flash. Its refusal has no number of document 01.
//
//     let loaded = image::load(bytes, classes, singles, pairs, index, blocks);
//
// `Some((numbers, sizes))`: the fronts of the lent tables, `sizes` long, hold the image's. `None`: the bytes are no image whose tables fit,
// and the lent tables are as before.

#![tactic(auto)]

ghost use Rattle.std.specs.Prelude.{◌≡◌, ◌+◌, ◌*◌, ◌≤◌, ◌<◌, ◌^◌, length};
ghost use Rattle.codepage.specs.Lent.{over};
ghost use Rattle.image.specs.Image.{two, four, numbers_of, sizes_of, zeros_kept, fit, end_of, is_image, part, units, rooms_of, load_of, LoadedAs};

use codepage::Numbers;
pub use codepage::Sizes;

// A number of two bytes.
#[tactic(auto, unfolding(crate::specs::Image::two))]
fn two_at(bytes: &[u8], at: usize) -> u16
    requires { at + 2 ≤ length bytes.now }
    ensures { result ≡ two bytes.now at }
{
    u16::from_le_bytes([bytes[at], bytes[at + 1]])
}

// A number of four bytes.
#[tactic(auto, unfolding(crate::specs::Image::four))]
fn four_at(bytes: &[u8], at: usize) -> usize
    requires { at + 4 ≤ length bytes.now }
    ensures value { result ≡ four bytes.now at }
    ensures upper_bound { result < 2 ^ 32 }
{
    (two_at(bytes, at) as usize) + 65536 * (two_at(bytes, at + 2) as usize)
}

// The numbers of the table set.
#[tactic(auto, unfolding(crate::specs::Image::numbers_of))]
fn numbers_of(bytes: &[u8]) -> Numbers
    requires { 28 ≤ length bytes.now }
    ensures { result ≡ numbers_of bytes.now }
{
    Numbers {
        page: two_at(bytes, 0),
        default_byte: bytes[2],
        default_unit: two_at(bytes, 4),
    }
}

// The sizes of the tables.
#[tactic(auto, unfolding(crate::specs::Image::sizes_of))]
fn sizes_of(bytes: &[u8]) -> Sizes
    requires { 28 ≤ length bytes.now }
    ensures value { result ≡ sizes_of bytes.now }
    ensures classes_bound { (result.classes < 2 ^ 32) × (result.singles < 2 ^ 32) × (result.pairs < 2 ^ 32) × (result.index < 2 ^ 32) × (result.blocks < 2 ^ 32) }
{
    Sizes {
        classes: four_at(bytes, 8),
        singles: four_at(bytes, 12),
        pairs: four_at(bytes, 16),
        index: four_at(bytes, 20),
        blocks: four_at(bytes, 24),
    }
}

// Whether the places that must be 0 are so.
#[tactic(auto, unfolding(crate::specs::Image::zeros_kept))]
fn zeros_kept(bytes: &[u8]) -> bool
    requires { 28 ≤ length bytes.now }
    ensures { result ≡ zeros_kept bytes.now }
{
    bytes[3] == 0 && two_at(bytes, 6) == 0
}

// Whether tables of these sizes fit.
#[tactic(auto, unfolding(crate::specs::Image::fit))]
fn fits(sizes: Sizes, rooms: Sizes) -> bool
    ensures { result ≡ fit sizes rooms }
{
    sizes.classes <= rooms.classes
        && sizes.singles <= rooms.singles
        && sizes.pairs <= rooms.pairs
        && sizes.index <= rooms.index
        && sizes.blocks <= rooms.blocks
}

// The length of an image whose tables have these sizes.
#[tactic(auto, unfolding(crate::specs::Image::end_of, crate::specs::Image::blocks_at, crate::specs::Image::index_at, crate::specs::Image::pairs_at, crate::specs::Image::singles_at))]
fn end_of(sizes: Sizes) -> usize
    requires { (sizes.classes < 2 ^ 32) × (sizes.singles < 2 ^ 32) × (sizes.pairs < 2 ^ 32) × (sizes.index < 2 ^ 32) × (sizes.blocks < 2 ^ 32) }
    ensures { result ≡ end_of sizes }
{
    28 + sizes.classes + 2 * sizes.singles + 2 * sizes.pairs + sizes.index + 2 * sizes.blocks
}

// Whether bytes are an image whose tables fit.
#[tactic(auto, unfolding(crate::specs::Image::is_image))]
fn is_image(bytes: &[u8], rooms: Sizes) -> bool
    ensures { result ≡ is_image bytes.now rooms }
{
    if bytes.len() < 28 || !zeros_kept(bytes) {
        return false;
    }
    let sizes = sizes_of(bytes);
    fits(sizes, rooms) && bytes.len() == end_of(sizes)
}

// Elements of one byte each, from a place on, laid over the front of a table.
#[tactic(auto, unfolding(crate::specs::Image::part, codepage::specs::Lent::over))]
fn load_bytes(bytes: &[u8], at: usize, count: usize, table: &mut [u8])
    requires { (at + count ≤ length bytes.now) × (count ≤ length table.old) }
    ensures { table.new ≡ over table.old (part bytes.now at count) }
{
    table[..count].copy_from_slice(&bytes[at..at + count]);
}

// Elements of two bytes each, from a place on, laid over the front of a table.
fn load_units(bytes: &[u8], at: usize, count: usize, table: &mut [u16])
    requires { (at + 2 * count ≤ length bytes.now) × (count ≤ length table.old) }
    ensures { table.new ≡ over table.old (units (part bytes.now at (2 * count))) }
{
    for i in 0..count {
        table[i] = two_at(bytes, at + 2 * i);
    }
}

// Reads an image into the fronts of the lent tables. Nothing is changed where the bytes are no image that fits.
pub fn load(
    bytes: &[u8],
    classes: &mut [u8],
    singles: &mut [u16],
    pairs: &mut [u16],
    index: &mut [u8],
    blocks: &mut [u16],
) -> Option<(Numbers, Sizes)>
    ensures { LoadedAs (load_of bytes.now (rooms_of classes.old singles.old pairs.old index.old blocks.old)) result classes.old classes.new singles.old singles.new pairs.old pairs.new index.old index.new blocks.old blocks.new }
{
    let rooms = Sizes {
        classes: classes.len(),
        singles: singles.len(),
        pairs: pairs.len(),
        index: index.len(),
        blocks: blocks.len(),
    };
    if !is_image(bytes, rooms) {
        return None;
    }
    let sizes = sizes_of(bytes);
    let singles_at = 28 + sizes.classes;
    let pairs_at = singles_at + 2 * sizes.singles;
    let index_at = pairs_at + 2 * sizes.pairs;
    let blocks_at = index_at + sizes.index;
    load_bytes(bytes, 28, sizes.classes, classes);
    load_units(bytes, singles_at, sizes.singles, singles);
    load_units(bytes, pairs_at, sizes.pairs, pairs);
    load_bytes(bytes, index_at, sizes.index, index);
    load_units(bytes, blocks_at, sizes.blocks, blocks);
    Some((numbers_of(bytes), sizes))
}
