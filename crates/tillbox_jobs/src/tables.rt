// A table set from a file: reading its image, and its shape in words.
use codepage::{Fault, Numbers, Sizes, TableRoom, TableSet};
use tillbox_storage::messages::{Reported, Stream};
use tillbox_storage::{files, messages};

// The number of the refusal of tables whose shape is not good.
const BAD_SHAPE: u8 = 10;

// The memory that a program lends: for the image of a table set, and for its tables.
#[derive(Drop)]
pub struct Memory<'a> {
    pub image: &'a mut [u8],
    pub room: TableRoom<'a>,
}

// Reads a file's image, by way of lent memory, into the fronts of lent tables. Where it is no image the reason was said. The memory has
// room for more than the longest image that fits the tables.
pub fn load(
    rt: &HostRuntime,
    path: &[u8],
    memory: &mut Memory,
) -> Result<(Numbers, Sizes), Reported> {
    let file = files::open_input(rt, path)?;
    let image = &mut *memory.image;
    let room = &mut memory.room;
    let count = file.read_some(image)?;
    let loaded = image::load(
        &image[..count],
        room.classes,
        room.singles,
        room.pairs,
        room.index,
        room.blocks,
    );
    loaded.ok_or_else(|| messages::wrong(path, b"it is not a table image"))
}

// The words of a wrong size: which table, and the size it should have.
fn put_size(to: Stream, table: &[u8], size: &[u8]) {
    to.put(b"the table of ");
    to.put(table);
    to.put(b" has another size than ");
    to.put(size);
}

// The words of a bad entry: which table, its place in hex, and what is wrong.
fn put_place(to: Stream, table: &[u8], place: usize, what: &[u8]) {
    to.put(table);
    to.put(b" at ");
    to.put_hex((place % 256) as u8);
    to.put(what);
}

// A fault of a shape in words.
fn put_fault(to: Stream, fault: Fault) {
    match fault {
        Fault::Page => to.put(b"the page is 0"),
        Fault::ClassesSize => put_size(to, b"classes", b"256"),
        Fault::SinglesSize => put_size(to, b"singles", b"256"),
        Fault::PairsSize => put_size(to, b"pairs", b"256 for each lead byte"),
        Fault::IndexSize => put_size(to, b"index numbers", b"256"),
        Fault::BlocksSize => put_size(to, b"blocks", b"1 to 256 blocks of 256"),
        Fault::Class(place) => put_place(to, b"the class", place, b" is none of 0, 1, 2, 4, 5, 6"),
        Fault::Lead(place) => put_place(
            to,
            b"the class",
            place,
            b" is that of a lead byte below 80",
        ),
        Fault::Number(place) => put_place(to, b"the index number", place, b" names no block"),
    }
}

// The shape report in words.
pub fn put_report(to: Stream, report: Result<(), Fault>) {
    match report {
        Ok(()) => to.put(b"good"),
        Err(fault) => put_fault(to, fault),
    }
    to.put(b"\n");
}

// Looks whether the shape of a table set is good. Where it is not, its first bad place was said.
pub fn good_shape(path: &[u8], tables: &TableSet) -> Result<(), Reported> {
    let report = codepage::shape_report(tables);
    if report.is_ok() {
        return Ok(());
    }
    let reported = messages::refuse(BAD_SHAPE, path);
    messages::say(b"  the first bad place: ");
    put_report(Stream::Err, report);
    Err(reported)
}
