// The units that a job reads: the bytes of a journal, or the units of a ledger. A part has at most 2,048 of them, so 2,049 units or 4,098
// bytes of room are enough for what one gives, with a pending lead byte or high surrogate.
ghost use Rattle.std.specs.Prelude.{◌≤◌};

use crate::blocks::{Turn, turn_taken};
use codepage::TableSet;
use convert::{Outcome, Pending, Run};
use tillbox_checks::kinds::Piece;
use tillbox_layout::front_len;
use tillbox_printing::mark::note_mark;
use tillbox_storage::files::OpenFile;
use tillbox_storage::messages::Reported;

// A unit of an input.
pub trait Unit: Piece {
    // The first half of a code that waits before a unit.
    fn waiting(pending: Pending) -> Option<Self>;

    // A call on one unit, as a whole text.
    fn call_on_one(run: Run, tables: &TableSet, unit: Self) -> Outcome;

    // A call on two units, as a whole text.
    fn call_on_two(run: Run, tables: &TableSet, first: Self, second: Self) -> Outcome;
}

impl Unit for u8 {
    fn waiting(pending: Pending) -> Option<u8> {
        pending.byte()
    }

    fn call_on_one(run: Run, tables: &TableSet, unit: u8) -> Outcome {
        u8::call(run, tables, &[unit], true)
    }

    fn call_on_two(run: Run, tables: &TableSet, first: u8, second: u8) -> Outcome {
        u8::call(run, tables, &[first, second], true)
    }
}

impl Unit for u16 {
    fn waiting(pending: Pending) -> Option<u16> {
        pending.high()
    }

    fn call_on_one(run: Run, tables: &TableSet, unit: u16) -> Outcome {
        u16::call(run, tables, &[unit], true)
    }

    fn call_on_two(run: Run, tables: &TableSet, first: u16, second: u16) -> Outcome {
        u16::call(run, tables, &[first, second], true)
    }
}

// Reads a part of `size` bytes of a journal, decodes it, and writes the units that it gives.
pub fn decode_part(
    run: Run,
    tables: &TableSet,
    source: &OpenFile,
    target: &OpenFile,
    size: usize,
    last: bool,
) -> Result<Turn, Reported>
    requires { size ≤ 2048 }
{
    let mut part = [0u8; 2048];
    source.read_block(&mut part[..size])?;
    let mut units = [0u16; 2049];
    let outcome = convert::decode(run, tables, &part[..size], last, &mut units);
    let filled = front_len(outcome.written, &units);
    let mut bytes = [0u8; 4098];
    let length = utf16::to_bytes(&units[..filled], &mut bytes);
    target.write(&bytes[..length])?;
    turn_taken(run, tables, &part[..size], last, outcome, source)
}

// Reads a part of `size` units of a ledger, encodes it, and writes the bytes that it gives.
pub fn encode_part(
    run: Run,
    tables: &TableSet,
    source: &OpenFile,
    target: &OpenFile,
    size: usize,
    last: bool,
) -> Result<Turn, Reported>
    requires { size ≤ 2048 }
{
    let mut read = [0u8; 4096];
    source.read_block(&mut read[..2 * size])?;
    let mut part = [0u16; 2048];
    let length = utf16::to_units(&read[..2 * size], &mut part);
    note_mark(run, &part[..length]);
    let mut bytes = [0u8; 4098];
    let outcome = convert::encode(run, tables, &part[..length], last, &mut bytes);
    let written = front_len(outcome.written, &bytes);
    target.write(&bytes[..written])?;
    turn_taken(run, tables, &part[..length], last, outcome, source)
}
