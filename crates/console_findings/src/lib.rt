// Inner: the console's command that lists the findings of the byte text. (docs/CONSOLE.md, CR 7.)

#![tactic(auto)]

use codepage::TableSet;
use console_print::{Hex, Output};
use console_script::texts;
use console_script::words::Words;
use findings::Finding;

// The most entries of a list.
const LIST_LIMIT: usize = 300;

// An entry before the call.
const FILLED: Finding = Finding {
    place: 0xEEEE,
    kind: 0xEE,
    size: 0xEE,
    first: 0xEE,
    second: 0xEE,
    digit: 0xEE,
};

// Whether the entries from a place on are as they were before the call.
fn is_kept(list: &[Finding], from: usize) -> bool {
    list.iter().skip(from).all(|entry| *entry == FILLED)
}

// A space, and an entry as PLACE/KIND/BYTES/DIGIT: of the bytes one, or two.
fn put_entry(entry: Finding, out: &mut Output<'_>) {
    out.put_number(entry.place as u64);
    out.put(b"/");
    out.put_decimal(entry.kind as u64);
    out.put(b"/");
    entry.first.put_hex(out);
    if entry.size != 1 {
        entry.second.put_hex(out);
    }
    out.put(b"/");
    out.put_decimal(entry.digit as u64);
}

// The number of findings, how many are in the list, these, and whether the rest is as it was.
fn put_findings(total: usize, list: &[Finding], out: &mut Output<'_>) {
    let found = texts::front(list, total);
    out.put_number(0);
    out.put_number(total as u64);
    out.put_number(found.len() as u64);
    for entry in found {
        put_entry(*entry, out);
    }
    out.put_kept(is_kept(list, total));
}

// `findings POLICY FROM COUNT SIZE`.
pub fn list_findings(
    mut words: Words<'_>,
    tables: &TableSet<'_>,
    text: &[u8],
    out: &mut Output<'_>,
) -> Option<()> {
    let policy = words.policy()?;
    let text = words.piece(text)?;
    let size = words.number(LIST_LIMIT as u64)?;
    words.end()?;
    let mut list = [FILLED; LIST_LIMIT];
    let list = &mut list[..size as usize];
    let listed = findings::list_findings(policy, tables, text, list);
    out.put(b"findings");
    match listed {
        Ok(total) => put_findings(total, list, out),
        Err(why) => {
            out.put_number(why.number() as u64);
            out.put_kept(is_kept(list, 0));
        }
    }
    out.put_end();
    Some(())
}
