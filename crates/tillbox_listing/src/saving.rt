// A table set written as an image, into a new file that then takes the place of another. (docs/CONSOLE.md, "A table image".)
use codepage::{Numbers, TableSet};
use std::io::ErrorKind;
use tillbox_storage::files::OpenFile;
use tillbox_storage::messages::Reported;
use tillbox_storage::names::with_beside;
use tillbox_storage::{files, messages};

// Writes a number of two bytes, low byte first.
fn put_two(number: u16, file: &OpenFile) -> Result<(), Reported> {
    file.write(&number.to_le_bytes())
}

// Writes the size of a table, a number of four bytes.
fn put_size(size: usize, file: &OpenFile) -> Result<(), Reported> {
    put_two((size % 65536) as u16, file)?;
    put_two((size / 65536 % 65536) as u16, file)
}

// Writes units, two bytes each.
fn put_units(units: &[u16], file: &OpenFile) -> Result<(), Reported> {
    for block in units.chunks(256) {
        let mut bytes = [0u8; 512];
        let length = utf16::to_bytes(block, &mut bytes);
        file.write(&bytes[..length])?;
    }
    Ok(())
}

// Writes page and defaults, with their zeros.
fn put_numbers(numbers: Numbers, file: &OpenFile) -> Result<(), Reported> {
    put_two(numbers.page, file)?;
    put_two(numbers.default_byte as u16, file)?;
    put_two(numbers.default_unit, file)?;
    put_two(0, file)
}

// Writes the image of a table set: its numbers, the sizes of its tables, and these. Where it could not, the reason was said.
fn put_image(tables: &TableSet, file: &OpenFile) -> Result<(), Reported> {
    put_numbers(tables.numbers, file)?;
    put_size(tables.classes.len(), file)?;
    put_size(tables.singles.len(), file)?;
    put_size(tables.pairs.len(), file)?;
    put_size(tables.index.len(), file)?;
    put_size(tables.blocks.len(), file)?;
    file.write(tables.classes)?;
    put_units(tables.singles, file)?;
    put_units(tables.pairs, file)?;
    file.write(tables.index)?;
    put_units(tables.blocks, file)
}

// Makes a file that is not there yet; what is wrong with it is said of the file `path` that it is for. One that is there is another call's, or
// was left by one that was cut.
fn make_fresh<'a>(
    rt: &HostRuntime,
    fresh: &[u8],
    path: &'a [u8],
) -> Result<OpenFile<'a>, Reported> {
    match files::create(rt, fresh) {
        Ok(file) => Ok(OpenFile { file, path }),
        Err(error) => {
            if error.kind() == ErrorKind::AlreadyExists {
                return Err(messages::wrong(
                    fresh,
                    b"it is there already: another call is making it, or one was cut; remove it and call again",
                ));
            }
            Err(messages::cannot(b"make", fresh, error))
        }
    }
}

// Gives a new file the name of another one, in whose place it then stands.
fn rename(rt: &HostRuntime, fresh: &[u8], path: &[u8]) -> Result<(), Reported> {
    files::rename(rt, fresh, path)?;
    files::sync_folder(rt, path);
    Ok(())
}

// Writes the image of a table set into a new file, and makes it safe.
fn put_safely(tables: &TableSet, file: OpenFile) -> Result<(), Reported> {
    let written = put_image(tables, &file);
    file.finish()?;
    written
}

// Replaces a file by the image of a table set, by way of a new file beside it, which is safe before it is renamed. Where it could not, the
// file is as it was, and the reason was said.
pub fn replace(rt: &HostRuntime, tables: &TableSet, path: &[u8]) -> Result<(), Reported> {
    let file = with_beside(path, b".new", |fresh| make_fresh(rt, fresh, path))?;
    let replaced = put_safely(tables, file).and_then(|_| with_beside(
        path,
        b".new",
        |fresh| rename(rt, fresh, path),
    ));
    if replaced.is_err() {
        let _ = with_beside(path, b".new", |fresh| Ok(files::remove(rt, fresh)));
    }
    replaced
}
