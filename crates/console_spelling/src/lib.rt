// Inner: the console's command that gives the byte text its standard spelling. (docs/CONSOLE.md, CR 8.)

#![tactic(auto)]

use codepage::TableSet;
use console_print::Output;
use console_script::texts;
use console_script::texts::{Element, Text};
use console_script::words::Words;
use spelling::Refusal;

// A refusal: its number, the place of the first code at fault, where that is why, and whether the room is as it was.
fn put_refusal(why: Refusal, room: &[u8], out: &mut Output<'_>) {
    out.put(b"spell");
    out.put_number(why.number() as u64);
    if let Refusal::AtFault(place) = why {
        out.put_number(place as u64);
    }
    out.put_kept(texts::is_kept(room, 0));
}

// `spell FROM COUNT ROOM`.
pub fn spell(
    mut words: Words<'_>,
    tables: &TableSet<'_>,
    text: &[u8],
    lent: &mut Text<'_, u8>,
    out: &mut Output<'_>,
) -> Option<()> {
    let text = words.piece(text)?;
    let size = words.number(u8::ROOM)?;
    words.end()?;
    let room = lent.lend(size as usize);
    let spelled = spelling::standard_spelling(tables, text, room);
    match spelled {
        Ok(length) => {
            out.put(b"spell 0");
            out.put_number(length as u64);
            texts::put_written(room, length, out);
        }
        Err(why) => put_refusal(why, room, out),
    }
    out.put_end();
    Some(())
}
