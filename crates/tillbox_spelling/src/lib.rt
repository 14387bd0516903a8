// Inner: a list of names, one a line, each in its standard spelling. (CR 8, `tillbox spell`.) A line ends at its line feed, the byte 0A,
// and the last one may lack it; then so does its spelling. A line that is refused is told, and copied as it is. What is decided about a
// line is decided by `spelling::standard_spelling`.

#![tactic(auto)]

pub mod job;
mod lines;
mod refused;
mod state;

use crate::state::ListState;
use codepage::TableSet;
use tillbox_storage::files::OpenFile;
use tillbox_storage::messages::Reported;

// The next block of the list: its bytes are put line by line.
fn next_block(
    state: &mut ListState,
    tables: &TableSet,
    source: &OpenFile,
    target: &OpenFile,
    size: usize,
    line: &mut [u8],
) -> Result<(), Reported> {
    let mut block = [0u8; 512];
    let size = tillbox_layout::front_len(size, &block);
    source.read_block(&mut block[..size])?;
    state.add_read(size);
    lines::put_bytes(state, tables, &block[..size], line, target)
}

// All blocks of a list of `total` bytes, and its last line. `line` is room for the bytes of one line; one that is longer is not spelled.
fn spell_list(
    tables: &TableSet,
    source: &OpenFile,
    target: &OpenFile,
    total: u64,
    line: &mut [u8],
) -> Result<ListState, Reported> {
    let mut state = ListState::default();
    for _ in 0..tillbox_layout::block_count(0, total, false) {
        let size = tillbox_layout::block_len(tillbox_layout::BLOCK, state.read, total);
        next_block(&mut state, tables, source, target, size, line)?;
    }
    lines::end_list(&mut state, tables, line, target)?;
    Ok(state)
}
