// A table set written as a table listing, line by line. (Document 02, CR 3; docs/RULES.md, "Listings".) Each call writes the next line to the
// front of the output and gives back the cursor for the one after it; 12 bytes are room for every line.
//
//     let mut cursor = Cursor::new();
//     let listed = lister::write_line(&tables, cursor, out);
//     // Ok(Some(line)): out[..line.length] is the line, cursor = line.next; Ok(None): no record is left; or Err(why): why.number()

#![tactic(auto)]

mod lines;
mod records;

ghost use Rattle.std.specs.Prelude.{◌≡◌, length};
ghost use Rattle.codepage.specs.CodePage.{page_of};
ghost use Rattle.lister.specs.Lister.{lister_number, first_line, list_of, ListedAs};

use codepage::TableSet;

// Where to go on: a place among those that records can have.
#[derive(Clone, Copy)]
pub struct Cursor {
    pub place: usize,
}

// Why a line is not written.
#[derive(Clone, Copy)]
pub enum Refusal {
    // 10: the shape of the tables is not good.
    BadShape,
    // 19: the line does not fit the room.
    NoRoom,
}

// A line that was written: its length, and where to go on.
#[derive(Clone, Copy)]
pub struct Line {
    pub length: usize,
    pub next: Cursor,
}

impl Refusal {
    // The number that document 02 gives the refusal.
    pub fn number(self) -> u8
        ensures { result ≡ lister_number self }
    {
        match self {
            Refusal::BadShape => 10,
            Refusal::NoRoom => 19,
        }
    }
}

impl Cursor {
    // Before the first line.
    pub fn new() -> Self
        ensures { result ≡ first_line }
    {
        Cursor { place: 0 }
    }
}

// Writes the next line at the front of the output, or answers `Ok(None)` where no record is left. Nothing is written where it does not fit.
pub fn write_line(
    tables: &TableSet,
    cursor: Cursor,
    out: &mut [u8],
) -> Result<Option<Line>, Refusal>
    ensures { ListedAs (list_of (page_of tables.now) cursor (length out.old)) result out.old out.new }
{
    if !codepage::shape::good_shape(tables) {
        return Err(Refusal::BadShape);
    }
    let place = records::next_place(tables, cursor.place);
    if records::PLACES <= place {
        return Ok(None);
    }
    let item = records::record_at(tables, place);
    let size = lines::line_len(item);
    if out.len() < size {
        return Err(Refusal::NoRoom);
    }
    let next = place + 1;
    lines::put_line(item, out);
    Ok(Some(Line {
        length: size,
        next: Cursor { place: next },
    }))
}
