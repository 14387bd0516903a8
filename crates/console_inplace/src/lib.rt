// Inner: the console's command that encodes inside one buffer. (docs/CONSOLE.md, CR 9.)

#![tactic(auto)]

use codepage::TableSet;
use console_print::Output;
use console_script::texts;
use console_script::texts::{Element, Spelled, Text};
use console_script::words::Words;
use inplace::{Encoded, Refusal};

// What a call answered, the result, and whether the bytes beyond it are as they were.
fn put_encoded(
    encoded: Result<Encoded, Refusal>,
    spelled: Spelled<'_>,
    buffer: &[u8],
    out: &mut Output<'_>,
) {
    match encoded {
        Ok(encoded) => {
            out.put_number(encoded.number() as u64);
            out.put_number(encoded.flags as u64);
            out.put_number(encoded.read as u64);
            out.put_number(encoded.written as u64);
            out.put_run(texts::front(buffer, encoded.written));
            out.put_kept(texts::repeats_from(spelled, buffer, encoded.written));
        }
        Err(why) => {
            out.put_number(why.number() as u64);
            out.put_kept(texts::repeats_from(spelled, buffer, 0));
        }
    }
}

// `inplace POLICY COUNT HEX`: a buffer of those bytes over and over, which no bytes can fill.
pub fn encode_in_place(
    mut words: Words<'_>,
    tables: &TableSet<'_>,
    lent: &mut Text<'_, u8>,
    out: &mut Output<'_>,
) -> Option<()> {
    let policy = words.policy()?;
    let size = words.number(u8::ROOM)?;
    let spelled = words.elements::<u8>()?;
    words.end()?;
    if size != 0 && spelled.count == 0 {
        return None;
    }
    lent.repeat(size as usize, spelled);
    let buffer = lent.items_mut();
    let encoded = inplace::encode_in_place(policy, tables, buffer);
    out.put(b"inplace");
    put_encoded(encoded, spelled, buffer, out);
    out.put_end();
    Some(())
}
