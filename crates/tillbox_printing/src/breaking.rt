// A line of the ledger as printed lines.
use crate::page::{Page, Receipt};
use linebreak::Refusal;
use tillbox_layout::front_len;
use tillbox_storage::files::OpenFile;
use tillbox_storage::messages;
use tillbox_storage::messages::{Reported, say, say_number};

// The longest printed line that is written with its line feed by one call.
const SHORT: usize = 1023;

// A printed line, and its line feed.
fn put_closed(page: &mut Page, part: &[u8], target: &OpenFile<'_>) -> Result<(), Reported> {
    let mut bytes = [0u8; SHORT + 1];
    let size = part.len();
    if SHORT < size {
        page.put(part, target)?;
        return page.put(b"\n", target);
    }
    bytes[..size].copy_from_slice(part);
    bytes[size] = b'\n';
    page.put(&bytes[..size + 1], target)
}

// A part of a line, and a line feed.
fn put_part(
    page: &mut Page,
    line: &[u8],
    from: u64,
    to: u64,
    target: &OpenFile<'_>,
) -> Result<(), Reported> {
    let end = front_len(to as usize, line);
    match line.get(from as usize..end) {
        Some(part) => put_closed(page, part, target),
        None => Ok(()),
    }
}

// The line from break to break, and from the last one to its end.
fn put_parts(
    page: &mut Page,
    line: &[u8],
    breaks: &[u64],
    target: &OpenFile<'_>,
) -> Result<(), Reported> {
    let mut from = 0;
    for to in breaks {
        put_part(page, line, from, *to, target)?;
        from = *to;
    }
    put_part(page, line, from, line.len() as u64, target)
}

// Says that a line is not broken.
fn say_line(number: u64) {
    say(b"tillbox: line ");
    say_number(number);
    say(b" is not broken: ");
}

// A line that is not broken, closed.
fn put_unbroken(page: &mut Page, line: &[u8], target: &OpenFile<'_>) -> Result<(), Reported> {
    put_closed(page, line, target)?;
    page.unbroken = page.unbroken.saturating_add(1);
    page.close(1);
    Ok(())
}

// A line that was written as it came, since it is longer than a text may be.
pub fn close_long(page: &mut Page, target: &OpenFile<'_>) -> Result<(), Reported> {
    say_line(page.number);
    say(b"it has over 65,536 bytes\n");
    put_unbroken(page, b"", target)
}

// Tells why the breaks of a line were refused.
fn say_refusal(why: Refusal, number: u64, width: u64, path: &[u8]) {
    match why {
        Refusal::NoneExists => {
            say_line(number);
            say(b"it has a code of over ");
            say_number(width);
            say(b" bytes\n");
        }
        Refusal::ListTooShort => {
            say_line(number);
            say(b"it would be over 4,097 printed lines\n");
        }
        _ => {
            messages::refuse(why.number(), path);
        }
    }
}

// Breaks a line by our proposal, and writes it. One whose breaks are refused is told, and written whole.
pub fn put_line(page: &mut Page, receipt: Receipt<'_>, line: &[u8]) -> Result<(), Reported> {
    let Receipt {
        tables,
        width,
        target,
    } = receipt;
    let mut breaks = [0u64; 4096];
    match linebreak::propose_breaks(tables, line, width, &mut breaks) {
        Err(why) => {
            say_refusal(why, page.number, width, target.path);
            put_unbroken(page, line, target)
        }
        Ok(count) => {
            let size = front_len(count, &breaks);
            put_parts(page, line, &breaks[..size], target)?;
            page.close((size as u64).saturating_add(1));
            Ok(())
        }
    }
}
