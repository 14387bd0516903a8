// Inner: a ledger encoded under 555, and its lines broken into the printed lines of a receipt. (CR 12, `tillbox preview width N`.)
// Every printed line is closed by a line feed. What is decided about the text is decided by the calls of `convert` and `linebreak`.

#![tactic(auto)]

mod breaking;
mod lines;
pub mod mark;
mod page;

pub use crate::page::Page;
use crate::page::Receipt;
use codepage::TableSet;
use convert::Run;
use tillbox_layout::{BLOCK, block_count, block_len, front_len};
use tillbox_storage::files::OpenFile;
use tillbox_storage::messages::Reported;

// The next block of the ledger, of `size` units: they are put line by line.
fn next_block(
    page: &mut Page,
    receipt: Receipt<'_>,
    source: &OpenFile<'_>,
    size: usize,
    line: &mut [u8],
) -> Result<(), Reported> {
    let mut block = [0u8; 1024];
    let count = front_len(size.saturating_mul(2), &block);
    source.read_block(&mut block[..count])?;
    let mut units = [0u16; 512];
    let length = utf16::to_units(&block[..count], &mut units);
    mark::note_mark(page.run, &units[..length]);
    lines::put_units(page, receipt, &units[..length], line)
}

// All blocks of a ledger of `total` units, and its last line. The run is one of 555 (`Policy::replacing`), so that it does not stop.
// `line` is room for the bytes of one line; a line that is longer is not broken.
pub fn print_ledger(
    run: Run,
    tables: &TableSet,
    width: u64,
    source: &OpenFile<'_>,
    target: &OpenFile<'_>,
    total: u64,
    line: &mut [u8],
) -> Result<Page, Reported> {
    let receipt = Receipt {
        tables,
        width,
        target,
    };
    let mut page = Page::new(run);
    for _ in 0..block_count(0, total, false) {
        let size = block_len(BLOCK, page.run.read, total);
        next_block(&mut page, receipt, source, size, line)?;
    }
    lines::end_text(&mut page, receipt, line)?;
    Ok(page)
}
