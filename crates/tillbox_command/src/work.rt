// What a call asks for, on files whose names are known: the tables are loaded into lent memory, once and for every command that reads a table image.
use crate::words::Command;
use codepage::TableSet;
use tillbox_jobs::job::Ending;
use tillbox_jobs::names::Names;
use tillbox_jobs::tables::Memory;
use tillbox_jobs::{job, shape, tables};
use tillbox_layout::front_len;
use tillbox_listing::names::{can_list, can_replace};
use tillbox_listing::reading::read_listing;
use tillbox_storage::messages::Reported;
use tillbox_storage::names::check_plain;

// The most bytes of a line that is broken or spelled, and of a part of a journal. They stand where the image was.
const LINE: usize = 65536;

// Looks whether the names of a call are of files that it can use; names that it has not are empty. It is asked before `run`, whose stack
// then has no names of its own.
pub fn look_at(rt: &HostRuntime, command: Command, names: Names) -> Result<(), Reported> {
    match command {
        Command::Shape => check_plain(rt, names.table),
        Command::Why(_) => {
            check_plain(rt, names.table)?;
            check_plain(rt, names.input)
        }
        Command::Listing => can_list(rt, names.table, names.input),
        Command::Table => can_replace(rt, names.table, names.input),
        Command::Convert(_) | Command::Import(_) | Command::Spell => names.are_apart(rt),
    }
}

// From a table set on. `room` is for a line or a part of a journal.
fn with_tables(
    rt: &HostRuntime,
    command: Command,
    tables: &TableSet,
    room: &mut [u8],
    names: Names,
) -> Result<Ending, Reported> {
    match command {
        Command::Shape => shape::print(tables),
        Command::Convert(job) => job::with_tables(rt, job, tables, room, names),
        Command::Import(policy) => tillbox_import::job::with_tables(rt, policy, tables, names),
        Command::Why(asked) => tillbox_why::job::with_tables(rt, asked, tables, room, names),
        Command::Spell => tillbox_spelling::job::with_tables(rt, tables, room, names),
        Command::Listing | Command::Table => tillbox_listing::writing::with_tables(
            rt, tables, room, names,
        ),
    }
}

// Does what a call asks for: a table is made from a listing, whose names come in that order; else a table is loaded. The memory of the image
// has room for a line then.
pub fn run(
    rt: &HostRuntime,
    command: Command,
    names: Names,
    memory: &mut Memory,
) -> Result<Ending, Reported> {
    if let Command::Table = command {
        return read_listing(rt, names.table, names.input, &mut memory.room);
    }
    let (numbers, sizes) = tables::load(rt, names.table, memory)?;
    let image = &mut *memory.image;
    let room = &mut memory.room;
    let tables = room.table_set(numbers, sizes);
    let size = front_len(LINE, image);
    with_tables(rt, command, &tables, &mut image[..size], names)
}
