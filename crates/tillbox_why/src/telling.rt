// The findings of a part, told one after the other.
use crate::Asked;
use crate::context::{put_context, shown_around};
use crate::line::put_line;
use crate::state::Telling;
use arrayvec::ArrayString;
use codepage::TableSet;
use findings::Finding;
use tillbox_storage::messages::Reported;
use tillbox_storage::{files, messages};

// Writes a finding's line, and the line around it where that is asked for, by one call. The text has room for both: what goes into it is at most
// 64 units on each side, a place and some words.
fn tell(
    rt: &HostRuntime,
    state: &mut Telling,
    asked: Asked,
    tables: &TableSet,
    part: &[u8],
    found: Finding,
) -> Result<(), Reported> {
    let mut text = ArrayString::<1024>::new();
    let _ = put_line(&mut text, state.start, found);
    if asked.context {
        let shown = shown_around(tables.classes, part, state.mark, found);
        let _ = put_context(&mut text, tables, part, &shown, found);
        state.mark = shown.start;
    }
    files::write_out(rt, text.as_str().as_bytes())?;
    state.add(found);
    Ok(())
}

// All findings of a part, up to its end or to a stop.
pub fn tell_part(
    rt: &HostRuntime,
    state: &mut Telling,
    asked: Asked,
    tables: &TableSet,
    part: &[u8],
) -> Result<(), Reported> {
    for _ in 0..=part.len() {
        match findings::next_finding(asked.policy, tables, part, state.told) {
            Err(why) => return Err(messages::refuse(why.number(), b"journal")),
            Ok(None) => {
                state.told = part.len();
                break;
            }
            Ok(Some(found)) => tell(rt, state, asked, tables, part, found)?,
        }
        if state.stopped {
            break;
        }
    }
    state.begin_part();
    Ok(())
}
