// The command on a text in one go.
use codepage::TableSet;
use console_print::Output;
use console_script::texts;
use console_script::texts::{Element, Text};
use console_script::words::Words;
use convert::{Direction, Policy};
use oneshot::Converted;

// What a call that was not refused gave: its number, flags, read, need and written.
fn put_converted(converted: Converted, out: &mut Output<'_>) {
    let totals = converted.totals;
    out.put_number(converted.ending.number() as u64);
    out.put_number(totals.flags as u64);
    out.put_number(totals.read as u64);
    out.put_number(totals.need as u64);
    out.put_number(totals.written as u64);
}

// `FROM COUNT ROOM`, the last words of `convert`. The rest of the room is looked at when the part that was filled is used.
fn convert_piece<I: oneshot::Text>(
    mut words: Words<'_>,
    policy: Policy,
    tables: &TableSet<'_>,
    text: &[I],
    lent: &mut Text<'_, I::Output>,
    out: &mut Output<'_>,
) -> Option<()>
where
    I::Output: Element,
{
    let text = words.piece(text)?;
    let size = words.number(<I::Output as Element>::ROOM)?;
    words.end()?;
    let room = lent.lend(size as usize);
    out.put(b"convert");
    let written = match oneshot::convert_filled(policy, tables, text, room) {
        Ok((converted, part)) => {
            put_converted(converted, out);
            out.put_run(part);
            part.len()
        }
        Err(refusal) => {
            out.put_number(refusal.number() as u64);
            0
        }
    };
    out.put_kept(texts::is_kept(room, written));
    out.put_end();
    Some(())
}

// `convert D POLICY FROM COUNT ROOM`.
pub fn convert_text(
    mut words: Words<'_>,
    tables: &TableSet<'_>,
    bytes: &[u8],
    units: &[u16],
    byte_room: &mut Text<'_, u8>,
    unit_room: &mut Text<'_, u16>,
    out: &mut Output<'_>,
) -> Option<()> {
    let direction = words.direction()?;
    let policy = words.policy()?;
    match direction {
        Direction::Decoding => convert_piece(words, policy, tables, bytes, unit_room, out),
        Direction::Encoding => convert_piece(words, policy, tables, units, byte_room, out),
    }
}
