// The check sums of the lent tables: FNV-1a of 32 bits over their bytes, the low byte of a unit first.
use codepage::{Sizes, TableRoom};
use console_print::{Hex, Output};
use console_script::state::Console;
use console_script::texts;
use console_script::words::Words;

const FIRST_SUM: u32 = 0x811C9DC5;

const SUM_FACTOR: u64 = 0x01000193;

// A sum with one more byte.
fn mixed(sum: u32, byte: u8) -> u32 {
    ((sum ^ (byte as u32)) as u64 * SUM_FACTOR % 4294967296) as u32
}

// An element of a table, as its bytes are mixed into a sum.
trait Summed: Copy {
    fn mixed_into(self, sum: u32) -> u32;
}

impl Summed for u8 {
    fn mixed_into(self, sum: u32) -> u32 {
        mixed(sum, self)
    }
}

impl Summed for u16 {
    fn mixed_into(self, sum: u32) -> u32 {
        mixed(mixed(sum, (self % 256) as u8), (self / 256) as u8)
    }
}

// A space, and the sum of the front of a table as eight hex digits.
fn put_sum<T: Summed>(count: usize, table: &[T], out: &mut Output<'_>) {
    let mut sum = FIRST_SUM;
    for item in texts::front(table, count) {
        sum = item.mixed_into(sum);
    }
    out.put(b" ");
    ((sum / 65536) as u16).put_hex(out);
    ((sum % 65536) as u16).put_hex(out);
}

// The sums of the fronts of five tables.
fn put_sums(sizes: Sizes, tables: &TableRoom<'_>, out: &mut Output<'_>) {
    put_sum(sizes.classes, tables.classes, out);
    put_sum(sizes.singles, tables.singles, out);
    put_sum(sizes.pairs, tables.pairs, out);
    put_sum(sizes.index, tables.index, out);
    put_sum(sizes.blocks, tables.blocks, out);
}

// `lent`: the sums of the five lent tables.
pub fn lent(words: Words<'_>, console: &Console<'_>, out: &mut Output<'_>) -> Option<()> {
    words.end()?;
    out.put(b"lent");
    put_sums(console.lent_sizes, &console.lent, out);
    out.put_end();
    Some(())
}
