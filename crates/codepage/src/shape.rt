// The shape test of a call, which other crates of this product call. It is no public call: that is the shape report.
ghost use Rattle.std.specs.Prelude.{◌≡◌, ℕ, length};
ghost use Rattle.codepage.specs.CodePage.{page_of, first_fault, is_good};
ghost use Rattle.codepage.specs.Marks.{good_sizes};

use crate::{TableSet, scans};

// Whether the sizes of the tables are those of a good shape, but for the pairs'.
fn good_sizes(classes: &[u8], singles: &[u16], index: &[u8], blocks: &[u16]) -> bool
    ensures { result ≡ good_sizes (length classes.now) (length singles.now) (length index.now) (length blocks.now) }
{
    if classes.len() != 256 {
        return false;
    }
    if singles.len() != 256 {
        return false;
    }
    if index.len() != 256 {
        return false;
    }
    if blocks.len() % 256 != 0 {
        return false;
    }
    if blocks.len() / 256 < 1 {
        return false;
    }
    blocks.len() / 256 <= 256
}

// Whether the shape is good. Its loops have no break; the report has its own.
pub fn good_shape(tables: &TableSet) -> bool
    ensures { result ≡ is_good (first_fault (page_of tables.now)) }
{
    let TableSet {
        numbers,
        classes,
        singles,
        pairs,
        index,
        blocks,
    } = *tables;
    if numbers.page == 0 {
        return false;
    }
    if !good_sizes(classes, singles, index, blocks) {
        return false;
    }
    let scan = scans::scan_classes(classes);
    if scan.mark != 0 {
        return false;
    }
    if blocks.len() / 256 <= (scans::largest(index) as usize) {
        return false;
    }
    if pairs.len() != 256 * (scan.leads as usize) {
        return false;
    }
    true
}
