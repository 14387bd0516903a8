// The answers of the commands that call the library.
use codepage::Fault;
use console_print::Output;
use console_script::texts;

// A fault of an entry: its word, and the entry's place.
fn put_place(word: &[u8], place: usize, out: &mut Output<'_>) {
    out.put(word);
    out.put_number(place as u64);
}

// The shape report, but for the line's end.
pub fn put_report(report: Result<(), Fault>, out: &mut Output<'_>) {
    match report {
        Ok(()) => out.put(b"shape good"),
        Err(Fault::Page) => out.put(b"shape page"),
        Err(Fault::ClassesSize) => out.put(b"shape classes"),
        Err(Fault::SinglesSize) => out.put(b"shape singles"),
        Err(Fault::PairsSize) => out.put(b"shape pairs"),
        Err(Fault::IndexSize) => out.put(b"shape index"),
        Err(Fault::BlocksSize) => out.put(b"shape blocks"),
        Err(Fault::Class(place)) => put_place(b"shape class", place, out),
        Err(Fault::Lead(place)) => put_place(b"shape lead", place, out),
        Err(Fault::Number(place)) => put_place(b"shape number", place, out),
    }
}

// A refusal to write a line: its number, and whether the room was kept.
pub fn put_unsaved(number: u64, room: &[u8], out: &mut Output<'_>) {
    out.put_number(number);
    out.put_kept(texts::is_kept(room, 0));
}
