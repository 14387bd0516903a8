// The units of a ledger, put line by line.
ghost use Rattle.std.specs.Prelude.{IfOk};
ghost use Rattle.io.specs.Counts.{IsPrefixLen};

use crate::breaking;
use crate::page::{Page, Receipt};
use convert::Pending;
use tillbox_checks::kinds;
use tillbox_layout::front_len;
use tillbox_storage::messages;
use tillbox_storage::messages::Reported;

const LINE_FEED: u16 = 0x000A;

// Encodes at most 512 units into a buffer that has room for them, and answers how many bytes they gave.
fn encode(
    page: &mut Page,
    receipt: Receipt<'_>,
    units: &[u16],
    last: bool,
    bytes: &mut [u8],
) -> Result<usize, Reported>
    ensures { IfOk result (λ size. IsPrefixLen size bytes.new) }
{
    let tables = receipt.tables;
    let before = page.run;
    let outcome = convert::encode(before, tables, units, last, bytes);
    messages::taken(outcome.answer, receipt.target.path)?;
    let after = outcome.run;
    if after.flags % 8 != 0 {
        page.kinds = page.kinds.with(kinds::of(before, tables, units, last));
    }
    page.run = after;
    Ok(front_len(outcome.written, bytes))
}

// Units of the line at hand, none of them a line feed.
fn put_piece(
    page: &mut Page,
    receipt: Receipt<'_>,
    units: &[u16],
    line: &mut [u8],
) -> Result<(), Reported> {
    if units.is_empty() {
        return Ok(());
    }
    let mut bytes = [0u8; 2048];
    let size = encode(page, receipt, units, false, &mut bytes)?;
    page.begun = true;
    page.append(&bytes[..size], line, receipt.target)
}

// How many bytes a pending unit gives when the line ends: under 555 one, the default.
fn pending_bytes(pending: Pending) -> usize {
    match pending {
        Pending::Nothing => 0,
        _ => 1,
    }
}

// The line at hand, broken and written.
fn close(page: &mut Page, receipt: Receipt<'_>, line: &[u8]) -> Result<(), Reported> {
    if page.over {
        return breaking::close_long(page, receipt.target);
    }
    let length = front_len(page.length, line);
    breaking::put_line(page, receipt, &line[..length])
}

// The end of a line: the units that end it are its line feed, or none at the text's end. A unit that is pending belongs to the line,
// the line feed's own code does not: each printed line gets a line feed.
fn end_line(
    page: &mut Page,
    receipt: Receipt<'_>,
    units: &[u16],
    last: bool,
    line: &mut [u8],
) -> Result<(), Reported> {
    let mut bytes = [0u8; 2048];
    let size = front_len(pending_bytes(page.run.pending), &bytes);
    encode(page, receipt, units, last, &mut bytes)?;
    page.append(&bytes[..size], line, receipt.target)?;
    close(page, receipt, line)
}

// The units of a block: the lines that end in it are written, the last one is begun.
pub fn put_units(
    page: &mut Page,
    receipt: Receipt<'_>,
    units: &[u16],
    line: &mut [u8],
) -> Result<(), Reported> {
    for part in units.split_inclusive(|unit| *unit == LINE_FEED) {
        match part.strip_suffix(&[LINE_FEED]) {
            Some(piece) => {
                put_piece(page, receipt, piece, line)?;
                end_line(page, receipt, &[LINE_FEED], false, line)?;
            }
            None => put_piece(page, receipt, part, line)?,
        }
    }
    Ok(())
}

// The text's end: a line that is begun is written, and the run ends.
pub fn end_text(page: &mut Page, receipt: Receipt<'_>, line: &mut [u8]) -> Result<(), Reported> {
    if page.begun {
        return end_line(page, receipt, &[], true, line);
    }
    let mut bytes = [0u8; 2048];
    encode(page, receipt, &[], true, &mut bytes)?;
    Ok(())
}
