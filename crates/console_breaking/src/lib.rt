// Inner: the console's commands that check and propose breaks of the byte text into lines. (docs/CONSOLE.md, CR 12.)

#![tactic(auto)]

use codepage::TableSet;
use console_print::Output;
use console_script::texts;
use console_script::texts::Filled;
use console_script::words::Words;

// The most places of a list of breaks.
const LIST_LIMIT: usize = 300;

// Reads numbers up to the line's end, as many as the list has places, and gives how many there were.
fn numbers(words: &mut Words<'_>, list: &mut [u64]) -> Option<usize> {
    for (count, place) in list.iter_mut().enumerate() {
        if words.end().is_some() {
            return Some(count);
        }
        *place = words.number(u64::MAX)?;
    }
    Some(list.len())
}

// `breaks WIDTH FROM COUNT BREAK..`.
pub fn check(
    mut words: Words<'_>,
    tables: &TableSet<'_>,
    text: &[u8],
    out: &mut Output<'_>,
) -> Option<()> {
    let width = words.number(u64::MAX)?;
    let text = words.piece(text)?;
    let mut list = [0u64; LIST_LIMIT];
    let count = self::numbers(&mut words, &mut list)?;
    words.end()?;
    let list = texts::front(&list, count);
    let checked = linebreak::check_breaks(tables, text, width, list);
    out.put(b"breaks");
    out.put_number(match checked {
        Ok(()) => 0,
        Err(why) => why.number() as u64,
    });
    out.put_end();
    Some(())
}

// The breaks that were written, how many, and whether the rest of the list is as it was.
fn put_breaks(count: usize, list: &[u64], out: &mut Output<'_>) {
    out.put_number(0);
    out.put_number(count as u64);
    for place in texts::front(list, count) {
        out.put_number(*place);
    }
    out.put_kept(texts::is_kept(list, count));
}

// A refusal, and whether the list is as it was.
fn put_refusal(number: u8, list: &[u64], out: &mut Output<'_>) {
    out.put_number(number as u64);
    out.put_kept(texts::is_kept(list, 0));
}

// `propose WIDTH FROM COUNT SIZE`.
pub fn propose(
    mut words: Words<'_>,
    tables: &TableSet<'_>,
    text: &[u8],
    out: &mut Output<'_>,
) -> Option<()> {
    let width = words.number(u64::MAX)?;
    let text = words.piece(text)?;
    let size = words.number(LIST_LIMIT as u64)?;
    words.end()?;
    let mut list = [u64::FILL; LIST_LIMIT];
    let list = &mut list[..size as usize];
    let proposed = linebreak::propose_breaks(tables, text, width, list);
    out.put(b"propose");
    match proposed {
        Ok(count) => put_breaks(count, list, out),
        Err(why) => put_refusal(why.number(), list, out),
    }
    out.put_end();
    Some(())
}
