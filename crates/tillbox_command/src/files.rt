// The names of the files of a call. The memory for the tables is handed on.
use crate::options::word_at;
use crate::words::Call;
use crate::work;
use tillbox_jobs::job::Ending;
use tillbox_jobs::names::Names;
use tillbox_jobs::tables::Memory;
use tillbox_storage::messages::{Reported, say};

// A name of a call, put at the front of a buffer; none where the call has fewer. Where it is empty or does not fit, that was said.
fn name_at<'a>(
    rt: &HostRuntime,
    call: Call,
    number: usize,
    buffer: &'a mut [u8],
) -> Result<Option<&'a [u8]>, Reported> {
    if call.names <= number {
        return Ok(None);
    }
    match word_at(rt, call.first.saturating_add(number), buffer) {
        Some(name) if !name.is_empty() => Ok(Some(name)),
        _ => {
            say(b"tillbox: error: the name of a file is empty or too long\n");
            Err(Reported)
        }
    }
}

// The names of a call's files.
fn names_of<'a>(
    table: &'a [u8],
    input: &'a [u8],
    output: &'a [u8],
    checkpoint: Option<&'a [u8]>,
) -> Names<'a> {
    Names {
        table,
        input,
        output,
        checkpoint,
    }
}

// Does what a call asks for on the files that its arguments name.
pub fn with_names(rt: &HostRuntime, call: Call, memory: &mut Memory) -> Result<Ending, Reported> {
    let mut table_room = io::buffer();
    let mut input_room = io::buffer();
    let mut output_room = io::buffer();
    let mut checkpoint_room = io::buffer();
    let table = name_at(rt, call, 0, &mut table_room)?.unwrap_or(b"");
    let input = name_at(rt, call, 1, &mut input_room)?.unwrap_or(b"");
    let output = name_at(rt, call, 2, &mut output_room)?.unwrap_or(b"");
    let checkpoint = name_at(rt, call, 3, &mut checkpoint_room)?;
    let names = names_of(table, input, output, checkpoint);
    work::look_at(rt, call.command, names)?;
    work::run(rt, call.command, names, memory)
}
