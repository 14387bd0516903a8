// The commands on the run in hand, and the shape report.
use crate::answers;
use checkpoint::Refusal;
use codepage::TableSet;
use console_print::Output;
use console_script::texts;
use console_script::texts::{Element, Text};
use console_script::words::Words;
use convert::{Outcome, Run};

// `shape`.
pub fn shape(words: Words<'_>, tables: &TableSet<'_>, out: &mut Output<'_>) -> Option<()> {
    words.end()?;
    answers::put_report(codepage::shape_report(tables), out);
    out.put_end();
    Some(())
}

// A run call by its name, as `decode FROM COUNT more ROOM`: `call` is given the run in hand, the piece, whether it is the last, and room.
pub fn call<T, U: Element, F: FnOnce(Run, &[T], bool, &mut [U]) -> Outcome>(
    name: &[u8],
    mut words: Words<'_>,
    text: &[T],
    run: &mut Run,
    lent: &mut Text<'_, U>,
    out: &mut Output<'_>,
    call: F,
) -> Option<()>
    requires { F.IsAlwaysCallable call }
{
    let piece = words.piece(text)?;
    let is_last = words.is_last()?;
    let size = words.number(U::ROOM)?;
    words.end()?;
    let room = lent.lend(size as usize);
    let outcome = call(*run, piece, is_last, room);
    *run = outcome.run;
    out.put(name);
    out.put_number(outcome.answer.number() as u64);
    out.put_number(outcome.read as u64);
    out.put_number(outcome.written as u64);
    texts::put_written(room, outcome.written, out);
    out.put_run_line(outcome.run);
    Some(())
}

// `save ROOM`.
pub fn save(
    mut words: Words<'_>,
    run: Run,
    lent: &mut Text<'_, u8>,
    out: &mut Output<'_>,
) -> Option<()> {
    let size = words.number(u8::ROOM)?;
    words.end()?;
    let room = lent.lend(size as usize);
    let written = checkpoint::write(run, room);
    out.put(b"save");
    match written {
        Ok(length) => {
            out.put_number(0);
            out.put_number(length as u64);
            texts::put_written(room, length, out);
        }
        Err(Refusal::InvalidRun) => answers::put_unsaved(12, room, out),
        Err(Refusal::NoRoom) => answers::put_unsaved(19, room, out),
    }
    out.put_end();
    Some(())
}
