// The lines of the table set's listing.
use codepage::TableSet;
use console_print::Output;
use console_script::texts;
use console_script::texts::Text;
use console_script::words::Words;
use lister::Cursor;

// The most bytes of room for a line.
const LINE_ROOM: u64 = 300;

// `lister`.
pub fn begin(words: Words<'_>, cursor: &mut Cursor, out: &mut Output<'_>) -> Option<()> {
    words.end()?;
    *cursor = Cursor::new();
    out.put(b"lister\n");
    Some(())
}

// `list ROOM`. The writer goes on where a line was written.
pub fn list(
    mut words: Words<'_>,
    tables: &TableSet<'_>,
    cursor: &mut Cursor,
    lent: &mut Text<'_, u8>,
    out: &mut Output<'_>,
) -> Option<()> {
    let size = words.number(LINE_ROOM)?;
    words.end()?;
    let room = lent.lend(size as usize);
    match lister::write_line(tables, *cursor, room) {
        Ok(Some(line)) => {
            *cursor = line.next;
            out.put(b"list 0");
            out.put_number(line.length as u64);
            texts::put_written(room, line.length, out);
        }
        Ok(None) => {
            out.put(b"list done");
            out.put_kept(texts::is_kept(room, 0));
        }
        Err(why) => {
            out.put(b"list");
            out.put_number(why.number() as u64);
            out.put_kept(texts::is_kept(room, 0));
        }
    }
    out.put_end();
    Some(())
}
