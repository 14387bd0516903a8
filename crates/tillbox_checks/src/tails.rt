// Whether the files of a checkpoint are those that its run was saved with, as far as it can be told: what the run has pending stands
// before the place where it goes on, and the end of the output is what the end of the input gives.
use crate::kinds::Piece;
use codepage::TableSet;
use convert::{Direction, Pending, Run};
use tillbox_layout::{BLOCK, block_len, front_len, place_of, units_in};
use tillbox_storage::files::OpenFile;
use tillbox_storage::messages;
use tillbox_storage::messages::Reported;

// The most units of an input that are looked at.
const LONGEST: u64 = 512;

// Whether some bytes stand at a place of a file.
fn stand_at(file: &OpenFile<'_>, place: u64, bytes: &[u8]) -> Result<bool, Reported> {
    let mut buffer = [0u8; 2048];
    let size = front_len(bytes.len(), &buffer);
    file.seek(place)?;
    let count = file.read_some(&mut buffer[..size])?;
    Ok(&buffer[..count] == bytes)
}

// The end of an output as a call gives it: how many units, and how many bytes these are.
#[derive(Clone, Copy)]
struct Given {
    units: usize,
    bytes: usize,
}

// Whether some bytes, the last of a call's output, are the last of so many units of an output.
fn end_output(
    target: &OpenFile<'_>,
    wide: bool,
    total: u64,
    count: usize,
    bytes: &[u8],
) -> Result<bool, Reported> {
    // An output that is too short is told when it is taken up.
    if units_in(wide, target.size()?) < total {
        return Ok(true);
    }
    match total.checked_sub(count as u64) {
        Some(unit) => stand_at(target, place_of(wide, unit), bytes),
        None => Ok(false),
    }
}

// What an input holds: bytes, or units.
trait Unit: Piece {
    // Whether one of them, and one of its output, has two bytes.
    const READS_WIDE: bool;

    const WRITES_WIDE: bool;

    // Fills a buffer with at most 512 of them from where a file is read next.
    fn read(source: &OpenFile<'_>, units: &mut [Self]) -> Result<(), Reported>;

    // Where a code begins for sure.
    fn boundary(units: &[Self], classes: &[u8]) -> usize;

    // What a call on them gives, laid into the bytes of an output.
    fn give(
        run: Run,
        tables: &TableSet,
        units: &[Self],
        last: bool,
        bytes: &mut [u8; 2048],
    ) -> Given;
}

// Whether a byte is a code by itself wherever it stands: it is below 80 and may not be second.
fn stands_alone(classes: &[u8], byte: u8) -> bool {
    let class = classes.get(byte as usize);
    byte < 0x80 && class.is_some_and(|class| !codepage::is_trail_class(*class))
}

impl Unit for u8 {
    const READS_WIDE: bool = false;

    const WRITES_WIDE: bool = true;

    fn read(source: &OpenFile<'_>, units: &mut [u8]) -> Result<(), Reported> {
        source.read_block(units)
    }

    // Behind the first byte that stands alone, or at the end where none does.
    fn boundary(units: &[u8], classes: &[u8]) -> usize {
        match units.iter().position(|byte| stands_alone(classes, *byte)) {
            Some(place) => place + 1,
            None => units.len(),
        }
    }

    fn give(
        run: Run,
        tables: &TableSet,
        units: &[u8],
        last: bool,
        bytes: &mut [u8; 2048],
    ) -> Given {
        let mut out = [0u16; 1024];
        let outcome = convert::decode(run, tables, units, last, &mut out);
        let count = front_len(outcome.written, &out);
        Given {
            units: count,
            bytes: utf16::to_bytes(&out[..count], bytes),
        }
    }
}

impl Unit for u16 {
    const READS_WIDE: bool = true;

    const WRITES_WIDE: bool = false;

    fn read(source: &OpenFile<'_>, units: &mut [u16]) -> Result<(), Reported> {
        let mut bytes = [0u8; 1024];
        let size = front_len(units.len().saturating_mul(2), &bytes);
        source.read_block(&mut bytes[..size])?;
        utf16::to_units(&bytes[..size], units);
        Ok(())
    }

    // A low surrogate may be the second half of a character.
    fn boundary(units: &[u16], _classes: &[u8]) -> usize {
        match units {
            [0xDC00..=0xDFFF, ..] => 1,
            _ => 0,
        }
    }

    fn give(
        run: Run,
        tables: &TableSet,
        units: &[u16],
        last: bool,
        bytes: &mut [u8; 2048],
    ) -> Given {
        let outcome = convert::encode(run, tables, units, last, bytes);
        let count = front_len(outcome.written, bytes);
        Given {
            units: count,
            bytes: count,
        }
    }
}

// Whether what a run has read last, from the beginning of a code on, gives the end of its output.
fn gives_end<T: Unit>(
    run: Run,
    tables: &TableSet,
    units: &[T],
    target: &OpenFile<'_>,
) -> Result<bool, Reported> {
    let Ok(fresh) = Run::start(T::DIRECTION, run.page, run.policy) else {
        return Ok(true);
    };
    let mut bytes = [0u8; 2048];
    let given = T::give(fresh, tables, units, run.ended, &mut bytes);
    let count = front_len(given.bytes, &bytes);
    end_output(
        target,
        T::WRITES_WIDE,
        run.written,
        given.units,
        &bytes[..count],
    )
}

// Whether the end of an output is what the end of the input gives, up to the place where a run goes on. `block` is room for 512 of the
// input's units.
fn end_stands<T: Unit>(
    run: Run,
    tables: &TableSet,
    source: &OpenFile<'_>,
    target: &OpenFile<'_>,
    block: &mut [T],
) -> Result<bool, Reported> {
    let size = front_len(block_len(BLOCK, 0, run.read), block);
    let units = &mut block[..size];
    source.seek(place_of(T::READS_WIDE, run.read.saturating_sub(size as u64)))?;
    T::read(source, units)?;
    // All that was read begins with a code.
    let first = if run.read <= LONGEST {
        0
    } else {
        T::boundary(units, tables.classes)
    };
    let from = front_len(first, units);
    gives_end(run, tables, &units[from..], target)
}

// Whether what a run has pending stands before the place where it goes on.
fn pending_stands(run: Run, source: &OpenFile<'_>) -> Result<bool, Reported> {
    let unit = run.read.saturating_sub(1);
    match run.pending {
        Pending::Nothing => Ok(true),
        Pending::Byte(byte) => stand_at(source, place_of(false, unit), &[byte]),
        Pending::High(high) => stand_at(source, place_of(true, unit), &high.to_le_bytes()),
    }
}

// Whether an input and an output are those of a run, as far as it can be told.
fn stand(
    run: Run,
    tables: &TableSet,
    source: &OpenFile<'_>,
    target: &OpenFile<'_>,
) -> Result<bool, Reported> {
    if !pending_stands(run, source)? {
        return Ok(false);
    }
    match run.direction {
        Direction::Decoding => end_stands(run, tables, source, target, &mut [0u8; 512]),
        Direction::Encoding => end_stands(run, tables, source, target, &mut [0u16; 512]),
    }
}

// Refuses an input and an open output that are not those of a run, as far as it can be told.
pub fn are_of(
    run: Run,
    tables: &TableSet,
    source: &OpenFile<'_>,
    target: &OpenFile<'_>,
) -> Result<(), Reported> {
    if stand(run, tables, source, target)? {
        return Ok(());
    }
    messages::wrong(
        source.path,
        b"it is not the input that the run of the checkpoint has read",
    );
    messages::say(b"  Up to the place where the run goes on it is not what ");
    messages::say(target.path);
    messages::say(
        b" was made of. A checkpoint is of one\n  input and one output: name these, or remove the checkpoint to begin anew.\n",
    );
    Err(Reported)
}
