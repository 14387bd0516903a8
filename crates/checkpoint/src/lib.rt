// The saved line of a run, at most 44 bytes of text. (Document 01, "The run and its saved line", as amended by CR 5; docs/RULES.md, "The
// run, and its saved line".)
//
// `write` puts a run's line at the front of lent room; `read` gives the run of a line, or refuses (18). Every run that keeps the rules
// has one line, and a line is one run's.
//
//     let saved = checkpoint::write(run, line);    // line: &mut [u8], room for 44; Ok(length), or Err(why): 12 or 19
//     let restored = checkpoint::read(&line[..length]);    // Some(run), or None: 18

#![tactic(auto)]

mod reader;
mod words;
mod writer;

ghost use Rattle.std.specs.Prelude.{◌≡◌, ℕ, length};
ghost use Rattle.checkpoint.specs.Line.{write_of, Saved, read_of, restored_as};

use convert::Run;

// Why a line is not written.
#[derive(Clone, Copy)]
pub enum Refusal {
    // 12: the run breaks the run rules.
    InvalidRun,
    // 19: the line does not fit the room.
    NoRoom,
}

// Writes a run's line at the front of the output. Nothing is written if the run breaks the rules or the line does not fit.
pub fn write(run: Run, out: &mut [u8]) -> Result<usize, Refusal>
    ensures { Saved (write_of run (length out.old)) result out.old out.new }
{
    let valid = convert::rules::valid_run(run);
    let size = writer::line_len(run);
    if !valid {
        return Err(Refusal::InvalidRun);
    }
    if out.len() < size {
        return Err(Refusal::NoRoom);
    }
    Ok(writer::put_line(run, out))
}

// Reads the run of a line; none: 18, it is not a saved line. A page has two bytes; over the other limits a run breaks the run rules.
pub fn read(line: &[u8]) -> Option<Run>
    ensures { restored_as result ≡ read_of line.now }
{
    let letter = reader::letter_at(line, 0)?;
    let page = reader::number_at(line, letter.next, 65535)?;
    let digits = reader::digits_at(line, page.next)?;
    let pending = reader::pending_at(line, digits.next, letter.value)?;
    let flags = reader::number_at(line, pending.next, 255)?;
    let read = reader::number_at(line, flags.next, Run::READ_LIMIT)?;
    let written = reader::number_at(line, read.next, 2 * Run::READ_LIMIT)?;
    let ended = reader::closing_at(line, written.next)?;
    let run = Run {
        direction: letter.value,
        page: page.value as u16,
        policy: digits.value,
        pending: pending.value,
        flags: flags.value as u8,
        read: read.value,
        written: written.value,
        ended,
    };
    if !convert::rules::valid_run(run) {
        return None;
    }
    Some(run)
}
