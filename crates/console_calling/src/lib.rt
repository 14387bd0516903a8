// Inner: the console's commands that call the library on the table set: what they answer is what the calls answered. (docs/CONSOLE.md.)

#![tactic(auto)]

mod answers;
mod run;
mod text;

use codepage::TableSet;
use console_print::Output;
use console_script::command::Command;
use console_script::state::Console;
use console_script::texts::{Element, Text};
use console_script::words::Words;
use convert::{Input, Run};

// A run call by the name of its command: on a run that is given, or, as the second name says, through a run record.
fn call_either<I: Input>(
    names: (&[u8], &[u8]),
    is_here: bool,
    words: Words<'_>,
    tables: &TableSet<'_>,
    text: &[I],
    run: &mut Run,
    room: &mut Text<'_, I::Output>,
    out: &mut Output<'_>,
) -> Option<()>
where
    I::Output: Element,
{
    let (given, here) = names;
    if is_here {
        return run::call(
            here,
            words,
            text,
            run,
            room,
            out,
            |run, piece, is_last, room| {
                runrecord::call_through(run, tables, piece, is_last, room)
            },
        );
    }
    run::call(
        given,
        words,
        text,
        run,
        room,
        out,
        |run, piece, is_last, room| { convert::call(run, tables, piece, is_last, room) },
    )
}

// `decode FROM COUNT more ROOM`, or `decodehere`.
fn decode(
    is_here: bool,
    words: Words<'_>,
    console: &mut Console<'_>,
    out: &mut Output<'_>,
) -> Option<()> {
    let tables = &console.tables.table_set(console.numbers, console.sizes);
    let text = console.bytes.items();
    let run = &mut console.run;
    let room = &mut console.unit_room;
    call_either(
        (b"decode", b"decodehere"),
        is_here,
        words,
        tables,
        text,
        run,
        room,
        out,
    )
}

// `encode FROM COUNT more ROOM`, or `encodehere`.
fn encode(
    is_here: bool,
    words: Words<'_>,
    console: &mut Console<'_>,
    out: &mut Output<'_>,
) -> Option<()> {
    let tables = &console.tables.table_set(console.numbers, console.sizes);
    let text = console.units.items();
    let run = &mut console.run;
    let room = &mut console.byte_room;
    call_either(
        (b"encode", b"encodehere"),
        is_here,
        words,
        tables,
        text,
        run,
        room,
        out,
    )
}

// Runs a command of a product above the converter, on the tables and the byte text that are set.
fn call_product(
    command: Command,
    words: Words<'_>,
    console: &mut Console<'_>,
    out: &mut Output<'_>,
) -> Option<()> {
    let tables = &console.tables.table_set(console.numbers, console.sizes);
    let text = console.bytes.items();
    let entries = &mut console.entries;
    let room = &mut console.byte_room;
    match command {
        Command::Breaks => console_breaking::check(words, tables, text, out),
        Command::Propose => console_breaking::propose(words, tables, text, out),
        Command::Index => console_indexing::index_of(words, entries, out),
        Command::Entry => console_indexing::entry(words, entries, out),
        Command::Append => {
            console_indexing::append(words, tables, text, entries.items_mut(), out)
        }
        Command::Find => console_indexing::find(words, tables, text, entries.items(), out),
        Command::Spell => console_spelling::spell(words, tables, text, room, out),
        Command::InPlace => console_inplace::encode_in_place(words, tables, room, out),
        Command::Findings => console_findings::list_findings(words, tables, text, out),
        Command::Decode => decode(false, words, console, out),
        Command::DecodeHere => decode(true, words, console, out),
        Command::Encode => encode(false, words, console, out),
        Command::EncodeHere => encode(true, words, console, out),
        _ => None,
    }
}

// Runs a command that calls the library on the table set.
pub fn run_call(
    command: Command,
    words: Words<'_>,
    console: &mut Console<'_>,
    out: &mut Output<'_>,
) -> Option<()> {
    let tables = &console.tables.table_set(console.numbers, console.sizes);
    match command {
        Command::Shape => run::shape(words, tables, out),
        Command::Save => run::save(words, console.run, &mut console.byte_room, out),
        Command::Convert => text::convert_text(
            words,
            tables,
            console.bytes.items(),
            console.units.items(),
            &mut console.byte_room,
            &mut console.unit_room,
            out,
        ),
        Command::List => console_listing::writing::list(
            words,
            tables,
            &mut console.cursor,
            &mut console.byte_room,
            out,
        ),
        _ => call_product(command, words, console, out),
    }
}
