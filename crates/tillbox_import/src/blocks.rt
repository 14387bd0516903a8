// The blocks of a journal, one after the other: each is decoded by one call with room enough, and cut into fields.
use crate::cutting::Begun;
use crate::records::Records;
use codepage::TableSet;
use convert::{Answer, Pending, Run};
use fields::Held;
use tillbox_jobs::blocks::{Turn, turn_of};
use tillbox_jobs::report;
use tillbox_layout::front_len;
use tillbox_storage::files::OpenFile;
use tillbox_storage::messages;
use tillbox_storage::messages::Reported;

// After some blocks: their turn, and where a field has too many units, the byte that its first unit over the limit is read from.
#[derive(Clone, Copy)]
pub struct Imported {
    pub turn: Turn,
    pub too_long: Option<u64>,
}

// How many units of a block stand before the first one over the limit: `read` of them are read, and `held` units are held.
fn over_limit(read: usize, held: usize) -> usize {
    read.saturating_add(Held::LIMIT.saturating_sub(held))
}

// The byte where a run stands: that of the pending one, if there is one.
fn byte_of(run: Run) -> u64 {
    match run.pending {
        Pending::Nothing => run.read,
        _ => run.read.saturating_sub(1),
    }
}

// The byte that a unit of a block is read from: the block is decoded again, with room for the `before` units before it.
fn byte_at(run: Run, tables: &TableSet, block: &[u8], last: bool, before: usize) -> u64 {
    let mut units = [0u16; 1024];
    let room = front_len(before, &units);
    byte_of(convert::decode(run, tables, block, last, &mut units[..room]).run)
}

// Decodes a block and cuts its units.
fn cut_block(
    run: Run,
    tables: &TableSet,
    block: &[u8],
    last: bool,
    begun: &mut Begun,
    records: &mut Records,
    source: &OpenFile,
) -> Result<Imported, Reported> {
    let mut units = [0u16; 1024];
    let outcome = convert::decode(run, tables, block, last, &mut units);
    messages::taken(outcome.answer, source.path)?;
    let filled = front_len(outcome.written, &units);
    let ends = last && matches!(outcome.answer, Answer::AllRead);
    let Some(read) = begun.cut_units(&units[..filled], ends, records)? else {
        return Ok(Imported {
            turn: turn_of(run, tables, block, last, outcome),
            too_long: None,
        });
    };
    let before = over_limit(read, begun.held.count);
    Ok(Imported {
        turn: Turn::first(outcome.run),
        too_long: Some(byte_at(run, tables, block, last, before)),
    })
}

// The next block.
fn next_block(
    run: Run,
    tables: &TableSet,
    begun: &mut Begun,
    records: &mut Records,
    source: &OpenFile,
    total: u64,
) -> Result<Imported, Reported> {
    let size = tillbox_layout::block_len(tillbox_layout::BLOCK, run.read, total);
    let last = tillbox_layout::is_final(tillbox_layout::BLOCK, run.read, total);
    let mut block = [0u8; 512];
    source.read_block(&mut block[..size])?;
    cut_block(run, tables, &block[..size], last, begun, records, source)
}

// One line for each 4 MiB of a journal.
fn on_the_way(run: Run, done: u64, total: u64) {
    if done % 8192 == 0 {
        report::progress(run, total);
    }
}

// All blocks of a journal of `total` bytes, to its end, to a stop, or to a field that has too many units.
pub fn all_blocks(
    run: Run,
    tables: &TableSet,
    records: &mut Records,
    source: &OpenFile,
    total: u64,
) -> Result<Imported, Reported> {
    let count = tillbox_layout::block_count(run.read, total, true);
    let mut begun = Begun::nothing();
    let mut turn = Turn::first(run);
    for done in 0..count {
        let next = next_block(turn.run, tables, &mut begun, records, source, total)?;
        turn = next.turn.behind(turn);
        if next.too_long.is_some() || turn.run.ended {
            return Ok(Imported {
                turn,
                too_long: next.too_long,
            });
        }
        on_the_way(turn.run, done + 1, total);
    }
    Ok(Imported {
        turn,
        too_long: None,
    })
}
