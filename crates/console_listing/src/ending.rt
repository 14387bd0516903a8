// The end of a listing: the lent tables become the table set, each cut to the size needed.
use codepage::{Numbers, Sizes, TableRoom};
use console_print::{Hex, Output};
use console_script::state::Console;
use console_script::words::Words;

// Copies the front of a table, as far as both tables go.
fn copy_front<T: Copy>(count: usize, from: &[T], to: &mut [T]) {
    let size = count.min(from.len()).min(to.len());
    to[..size].copy_from_slice(&from[..size]);
}

// Copies the fronts of five tables.
fn copy_tables(sizes: Sizes, from: &TableRoom<'_>, to: &mut TableRoom<'_>) {
    copy_front(sizes.classes, from.classes, to.classes);
    copy_front(sizes.singles, from.singles, to.singles);
    copy_front(sizes.pairs, from.pairs, to.pairs);
    copy_front(sizes.index, from.index, to.index);
    copy_front(sizes.blocks, from.blocks, to.blocks);
}

// Answers `listed` where the listing is whole: page and defaults, and the sizes of pairs and blocks.
fn put_listed(numbers: Numbers, sizes: Sizes, out: &mut Output<'_>) {
    out.put(b"listed 0");
    out.put_number(numbers.page as u64);
    out.put(b" ");
    numbers.default_byte.put_hex(out);
    out.put(b" ");
    numbers.default_unit.put_hex(out);
    out.put_number(sizes.pairs as u64);
    out.put_number(sizes.blocks as u64);
}

// `listed`.
pub fn listed(words: Words<'_>, console: &mut Console<'_>, out: &mut Output<'_>) -> Option<()> {
    words.end()?;
    match listing::end(console.progress) {
        Ok((numbers, sizes)) => {
            copy_tables(sizes, &console.lent, &mut console.tables);
            console.numbers = numbers;
            console.sizes = sizes;
            put_listed(numbers, sizes, out);
        }
        Err(why) => {
            out.put(b"listed");
            out.put_number(why.number() as u64);
        }
    }
    out.put_end();
    Some(())
}
