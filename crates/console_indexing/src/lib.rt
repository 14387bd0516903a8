// Inner: the console's commands on the index of the byte text, by way of entries that it holds. (docs/CONSOLE.md, CR 11.)

#![tactic(auto)]

use codepage::TableSet;
use console_print::Output;
use console_script::texts;
use console_script::texts::Text;
use console_script::words::Words;

// The most entries of the index.
const INDEX_LIMIT: u64 = 300;

// The largest count of an entry.
const COUNT_LIMIT: u64 = 2147483647;

// Answers a command by its name and one number.
fn put_answer(name: &[u8], number: u64, out: &mut Output<'_>) {
    out.put(name);
    out.put_number(number);
    out.put_end();
}

// `index SIZE`.
pub fn index_of(
    mut words: Words<'_>,
    entries: &mut Text<'_, u32>,
    out: &mut Output<'_>,
) -> Option<()> {
    let size = words.number(INDEX_LIMIT)?;
    words.end()?;
    entries.fill(size as usize);
    put_answer(b"index", entries.items().len() as u64, out);
    Some(())
}

// `entry K COUNT MARK`.
pub fn entry(
    mut words: Words<'_>,
    entries: &mut Text<'_, u32>,
    out: &mut Output<'_>,
) -> Option<()> {
    let k = words.number(INDEX_LIMIT)?;
    let count = words.number(COUNT_LIMIT)?;
    let mark = words.number(1)?;
    words.end()?;
    if (entries.items().len() as u64) <= k {
        return None;
    }
    entries.set(k as usize, (count * 2 + mark) as u32);
    put_answer(b"entry", k, out);
    Some(())
}

// All entries of the index, each behind a space as COUNT/MARK, or `-` for none.
fn put_index(entries: &[u32], out: &mut Output<'_>) {
    if entries.is_empty() {
        out.put(b" -");
    }
    for entry in entries {
        out.put_number((*entry / 2) as u64);
        out.put(if *entry % 2 == 0 { b"/0" } else { b"/1" });
    }
}

// `append FORMER COUNT`: answered with the whole index after the call.
pub fn append(
    mut words: Words<'_>,
    tables: &TableSet<'_>,
    text: &[u8],
    entries: &mut [u32],
    out: &mut Output<'_>,
) -> Option<()> {
    let former = words.number(u64::MAX)? as usize;
    let count = words.number(text.len() as u64)?;
    words.end()?;
    let journal = texts::front(text, count as usize);
    let appended = charindex::append(tables, journal, former, entries);
    out.put(b"append");
    out.put_number(match appended {
        Ok(_) => 0,
        Err(why) => why.number() as u64,
    });
    put_index(entries, out);
    out.put_end();
    Some(())
}

// `find N COUNT`: answered with the place of a code and its length.
pub fn find(
    mut words: Words<'_>,
    tables: &TableSet<'_>,
    text: &[u8],
    entries: &[u32],
    out: &mut Output<'_>,
) -> Option<()> {
    let n = words.number(u64::MAX)?;
    let count = words.number(text.len() as u64)?;
    words.end()?;
    let journal = texts::front(text, count as usize);
    let found = charindex::find(tables, journal, entries, n);
    match found {
        Ok(code) => {
            out.put(b"find 0");
            out.put_number(code.place as u64);
            put_answer(b"", code.length as u64, out);
        }
        Err(why) => put_answer(b"find", why.number() as u64, out),
    }
    Some(())
}
