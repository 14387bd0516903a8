// Lent tables, and the lines that are read into them.
use codepage::{Sizes, TableRoom};
use console_print::Output;
use console_script::state::Console;
use console_script::texts;
use console_script::words::Words;
use listing::{Progress, Refusal};

// The most elements of the lent tables: of classes, singles and index, of pairs, and of blocks.
const BYTE_LIMIT: u64 = 300;

const PAIRS_LIMIT: u64 = 33024;

const BLOCKS_LIMIT: u64 = 66048;

// Five sizes within their limits.
fn sizes(words: &mut Words<'_>) -> Option<Sizes> {
    Some(Sizes {
        classes: words.number(BYTE_LIMIT)? as usize,
        singles: words.number(BYTE_LIMIT)? as usize,
        pairs: words.number(PAIRS_LIMIT)? as usize,
        index: words.number(BYTE_LIMIT)? as usize,
        blocks: words.number(BLOCKS_LIMIT)? as usize,
    })
}

// Fills the fronts of five tables.
fn fill_tables(sizes: Sizes, tables: &mut TableRoom<'_>) {
    texts::fill(tables.classes, sizes.classes);
    texts::fill(tables.singles, sizes.singles);
    texts::fill(tables.pairs, sizes.pairs);
    texts::fill(tables.index, sizes.index);
    texts::fill(tables.blocks, sizes.blocks);
}

// `lend CLASSES SINGLES PAIRS INDEX BLOCKS`: the reader is a fresh one.
pub fn lend(mut words: Words<'_>, console: &mut Console<'_>, out: &mut Output<'_>) -> Option<()> {
    let sizes = self::sizes(&mut words)?;
    words.end()?;
    fill_tables(sizes, &mut console.lent);
    console.lent_sizes = sizes;
    console.progress = Progress::new();
    out.put(b"lend");
    out.put_number(sizes.classes as u64);
    out.put_number(sizes.singles as u64);
    out.put_number(sizes.pairs as u64);
    out.put_number(sizes.index as u64);
    out.put_number(sizes.blocks as u64);
    out.put_end();
    Some(())
}

// Gives a line to the reader, with the lent tables as long as they are.
fn give_line(
    progress: Progress,
    line: &[u8],
    sizes: Sizes,
    tables: &mut TableRoom<'_>,
) -> Result<Progress, Refusal> {
    let classes = sizes.classes.min(tables.classes.len());
    let singles = sizes.singles.min(tables.singles.len());
    let pairs = sizes.pairs.min(tables.pairs.len());
    let index = sizes.index.min(tables.index.len());
    let blocks = sizes.blocks.min(tables.blocks.len());
    listing::read_line(
        progress,
        line,
        &mut tables.classes[..classes],
        &mut tables.singles[..singles],
        &mut tables.pairs[..pairs],
        &mut tables.index[..index],
        &mut tables.blocks[..blocks],
    )
}

// `line HEX`, by way of the lent output. The reader stays where the line is refused.
pub fn read_line(
    mut words: Words<'_>,
    console: &mut Console<'_>,
    out: &mut Output<'_>,
) -> Option<()> {
    let line = words.elements::<u8>()?;
    words.end()?;
    console.byte_room.repeat(line.count, line);
    let read = give_line(
        console.progress,
        console.byte_room.items(),
        console.lent_sizes,
        &mut console.lent,
    );
    match read {
        Ok(progress) => {
            console.progress = progress;
            out.put(b"line 0");
        }
        Err(why) => {
            out.put(b"line");
            out.put_number(why.number() as u64);
        }
    }
    out.put_end();
    Some(())
}
