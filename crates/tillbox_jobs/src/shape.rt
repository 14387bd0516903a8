// The shape report of a table image, and how much it holds, in words on standard output.
use crate::job::Ending;
use crate::tables;
use codepage::TableSet;
use tillbox_checks::entries;
use tillbox_storage::messages::{Reported, Stream};

// How many codes have a character, and how many characters a code.
fn put_counts(tables: &TableSet) {
    Stream::Out.put(b"codes with a character: ");
    Stream::Out.put_number(entries::single_codes(tables.classes, tables.singles));
    Stream::Out.put(b" of one byte, ");
    Stream::Out.put_number(entries::pair_codes(tables.classes, tables.pairs));
    Stream::Out.put(b" of two bytes; characters with a code: ");
    Stream::Out.put_number(entries::characters(tables.index, tables.blocks));
    Stream::Out.put(b"\n");
}

// Writes the report. A shape that is not good is no success.
pub fn print(tables: &TableSet) -> Result<Ending, Reported> {
    let report = codepage::shape_report(tables);
    Stream::Out.put(b"page ");
    Stream::Out.put_number(tables.numbers.page as u64);
    Stream::Out.put(b": ");
    tables::put_report(Stream::Out, report);
    if report.is_err() {
        return Err(Reported);
    }
    put_counts(tables);
    Ok(Ending::Done)
}
