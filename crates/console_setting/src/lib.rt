// Inner: the console's commands that set what it holds, the table set, the texts and the run in hand. (docs/CONSOLE.md.)

#![tactic(auto)]

ghost use Rattle.io.specs.Counts.{IsPrefixLen};

use codepage::{Numbers, Sizes, TableRoom};
use console_print::{Hex, Output};
use console_script::state::Console;
use console_script::texts::{Element, TEXT_LIMIT, Text};
use console_script::words::Words;
use convert::{Policy, Run};
use std::fs::File;
use std::os::fd::AsRawFd;

// The bytes of a file, as far as they fit; none where it can't be read.
fn read_file(rt: &HostRuntime, name: &[u8], file: &mut [u8]) -> usize
    ensures { IsPrefixLen result file.new }
{
    let Ok(path) = str::from_utf8(name) else {
        return 0;
    };
    let Ok(from) = File::open(rt, path) else {
        return 0;
    };
    io::read_full(from.as_raw_fd(), file)
}

// The answer to `table FILE` where the file is an image: the table set's numbers and sizes.
fn put_table(numbers: Numbers, sizes: Sizes, out: &mut Output<'_>) {
    out.put(b"table");
    out.put_number(numbers.page as u64);
    out.put(b" ");
    numbers.default_byte.put_hex(out);
    out.put(b" ");
    numbers.default_unit.put_hex(out);
    out.put_number(sizes.classes as u64);
    out.put_number(sizes.singles as u64);
    out.put_number(sizes.pairs as u64);
    out.put_number(sizes.index as u64);
    out.put_number(sizes.blocks as u64);
    out.put_end();
}

// Reads a file's image into the tables. The buffer has room for one byte more than the longest image.
fn load_file(
    rt: &HostRuntime,
    name: &[u8],
    tables: &mut TableRoom<'_>,
) -> Option<(Numbers, Sizes)> {
    let mut file = [0u8; 199373];
    let count = read_file(rt, name, &mut file);
    image::load(
        &file[..count],
        tables.classes,
        tables.singles,
        tables.pairs,
        tables.index,
        tables.blocks,
    )
}

// `table FILE`. The table set stays where the file is no image.
pub fn table(
    rt: &HostRuntime,
    mut words: Words<'_>,
    console: &mut Console<'_>,
    out: &mut Output<'_>,
) -> Option<()> {
    let name = words.name()?;
    words.end()?;
    match load_file(rt, name, &mut console.tables) {
        Some((numbers, sizes)) => {
            console.numbers = numbers;
            console.sizes = sizes;
            put_table(numbers, sizes, out);
        }
        None => out.put(b"table -\n"),
    }
    Some(())
}

// Answers a command that set a text by its name: its length.
fn put_count(name: &[u8], count: usize, out: &mut Output<'_>) {
    out.put(name);
    out.put_number(count as u64);
    out.put_end();
}

// `bytes HEX`, or `units HEX`: sets a text.
pub fn set_text<T: Element>(
    name: &[u8],
    mut words: Words<'_>,
    text: &mut Text<'_, T>,
    out: &mut Output<'_>,
) -> Option<()> {
    let spelled = words.elements::<T>()?;
    words.end()?;
    text.repeat(spelled.count, spelled);
    put_count(name, text.items().len(), out);
    Some(())
}

// `fillbytes COUNT HEX`, or `fillunits COUNT HEX`: sets a text to some elements over and over.
pub fn fill_text<T: Element>(
    name: &[u8],
    mut words: Words<'_>,
    text: &mut Text<'_, T>,
    out: &mut Output<'_>,
) -> Option<()> {
    let count = words.number(TEXT_LIMIT as u64)?;
    let spelled = words.elements::<T>()?;
    words.end()?;
    if spelled.count == 0 {
        return None;
    }
    text.repeat(count as usize, spelled);
    put_count(name, text.items().len(), out);
    Some(())
}

// `standard`: the digits of the standard policy.
pub fn standard(words: Words<'_>, out: &mut Output<'_>) -> Option<()> {
    words.end()?;
    out.put(b"standard");
    out.put_policy(Policy::standard());
    out.put_end();
    Some(())
}

// `start D PAGE POLICY`. The run in hand stays where the start is refused.
pub fn start(mut words: Words<'_>, console: &mut Console<'_>, out: &mut Output<'_>) -> Option<()> {
    let direction = words.direction()?;
    let page = words.number(65535)?;
    let policy = words.policy()?;
    words.end()?;
    match Run::start(direction, page as u16, policy) {
        Ok(run) => {
            console.run = run;
            out.put(b"start 0");
            out.put_run_line(run);
        }
        Err(why) => {
            out.put(b"start");
            out.put_number(why.number() as u64);
            out.put_end();
        }
    }
    Some(())
}

// `run D PAGE S P I CARRIED FLAGS READ WRITTEN on`.
pub fn run(mut words: Words<'_>, console: &mut Console<'_>, out: &mut Output<'_>) -> Option<()> {
    let run = words.run()?;
    words.end()?;
    console.run = run;
    out.put(b"run");
    out.put_run_line(run);
    Some(())
}

// `load HEX`, by way of the lent output. The run in hand stays where the line is refused.
pub fn load(mut words: Words<'_>, console: &mut Console<'_>, out: &mut Output<'_>) -> Option<()> {
    let line = words.elements::<u8>()?;
    words.end()?;
    console.byte_room.repeat(line.count, line);
    match checkpoint::read(console.byte_room.items()) {
        Some(run) => {
            console.run = run;
            out.put(b"load 0");
            out.put_run_line(run);
        }
        None => out.put(b"load 18\n"),
    }
    Some(())
}
