// The checkpoint file: a run's line, replaced by a new file under its name only once the output is safe.
use crate::files::OpenFile;
use crate::messages::Reported;
use crate::names::with_beside;
use crate::{files, messages};
use checkpoint::Refusal;
use convert::Run;

// The bytes that a saved line fits: it has at most 44.
const LINE_ROOM: usize = 64;

// The number that document 01 gives what is not a saved line.
const NOT_A_LINE: u8 = 18;

// The number that document 01 gives the refusal of a line's writing.
fn number_of(why: Refusal) -> u8 {
    match why {
        Refusal::InvalidRun => 12,
        Refusal::NoRoom => 19,
    }
}

// Reads the line of an open checkpoint file.
pub fn read_line(file: &OpenFile<'_>) -> Result<Run, Reported> {
    let mut line = [0u8; LINE_ROOM];
    let count = file.read_some(&mut line)?;
    match checkpoint::read(&line[..count]) {
        Some(run) => Ok(run),
        None => Err(messages::refuse(NOT_A_LINE, file.path)),
    }
}

// Writes a file whole and safely. It must not be there yet.
fn write_new(rt: &HostRuntime, path: &[u8], bytes: &[u8]) -> Result<(), Reported> {
    let file = files::make_new(rt, path)?;
    let written = file.write(bytes);
    let synced = file.sync();
    written.and(synced)
}

// Puts a line into the file `fresh` and gives that file the checkpoint's name.
fn replace(rt: &HostRuntime, line: &[u8], fresh: &[u8], path: &[u8]) -> Result<(), Reported> {
    files::remove(rt, fresh);
    write_new(rt, fresh, line)?;
    files::rename(rt, fresh, path)
}

// Whether a file can be made; it is removed again.
fn can_make(rt: &HostRuntime, fresh: &[u8]) -> Result<(), Reported> {
    files::remove(rt, fresh);
    files::make_new(rt, fresh)?;
    files::remove(rt, fresh);
    Ok(())
}

// Whether the new file of a checkpoint can be made beside it.
pub fn can_save(rt: &HostRuntime, path: &[u8]) -> Result<(), Reported> {
    with_beside(path, b".new", |fresh| can_make(rt, fresh))
}

// Saves a run: first what was written to the output is made safe, then the line takes the checkpoint's place, by way of a new file
// beside it.
pub fn save(
    rt: &HostRuntime,
    run: Run,
    target: &OpenFile<'_>,
    path: &[u8],
) -> Result<(), Reported> {
    target.sync()?;
    let mut line = [0u8; LINE_ROOM];
    let size = checkpoint::write(run, &mut line).map_err(|why| messages::refuse(
        number_of(why),
        path,
    ))?;
    let count = tillbox_layout::front_len(size, &line);
    with_beside(
        path,
        b".new",
        |fresh| replace(rt, &line[..count], fresh, path),
    )
}
