// The tester's console: reads commands from standard input, one a line, calls the library and writes one line for each
// command to standard output. (docs/CONSOLE.md.)

#![tactic(auto)]

mod commands;
mod input;
mod output;

use codepage::TableRoom;
use console_print::Output;
use console_script::state;
use console_script::state::Console;
use console_script::texts::Text;
use input::Input;
use lister::Cursor;
use listing::Progress;

// Answers the lines of the input. A proved loop has to end, and nothing says that the input does: so the loop counts its turns, up to a
// number that no run reaches.
fn answer_lines(
    rt: &HostRuntime,
    input: &mut Input<'_>,
    line: &mut Output<'_>,
    console: &mut Console<'_>,
    out: &mut Output<'_>,
) {
    for _ in 0..u64::MAX {
        if !input.next_line(line) {
            return;
        }
        commands::answer(rt, line.printed(), console, out);
        output::flush(out, input.is_waiting());
    }
}

// Answers the input with room for the answers. The tables have room for one element too many, and so have the texts, the rooms and the
// line.
fn answer_input(rt: &HostRuntime, room: &mut [u8]) {
    let mut tables = (
        [0u8; 300],
        [0u16; 300],
        [0u16; 33024],
        [0u8; 300],
        [0u16; 66048],
    );
    let mut lent = (
        [0u8; 300],
        [0u16; 300],
        [0u16; 33024],
        [0u8; 300],
        [0u16; 66048],
    );
    let mut bytes = [0u8; 66000];
    let mut units = [0u16; 66000];
    let mut buffer = [0u16; 300];
    let mut entries = [0u32; 300];
    let mut byte_room = [0u8; 140000];
    let mut unit_room = [0u16; 66000];
    let mut block = [0u8; 65536];
    let mut line_room = [0u8; 400001];
    let mut out = Output::new(room);
    let mut line = Output::new(&mut line_room);
    let mut input = Input::new(rt.stdin(), &mut block);
    let mut console = Console {
        numbers: state::no_numbers(),
        tables: TableRoom {
            classes: &mut tables.0,
            singles: &mut tables.1,
            pairs: &mut tables.2,
            index: &mut tables.3,
            blocks: &mut tables.4,
        },
        sizes: state::no_sizes(),
        bytes: Text::new(&mut bytes),
        units: Text::new(&mut units),
        run: state::no_run(),
        buffer: Text::new(&mut buffer),
        held: 0,
        entries: Text::new(&mut entries),
        lent: TableRoom {
            classes: &mut lent.0,
            singles: &mut lent.1,
            pairs: &mut lent.2,
            index: &mut lent.3,
            blocks: &mut lent.4,
        },
        lent_sizes: state::no_sizes(),
        progress: Progress::new(),
        cursor: Cursor::new(),
        byte_room: Text::new(&mut byte_room),
        unit_room: Text::new(&mut unit_room),
    };
    answer_lines(rt, &mut input, &mut line, &mut console, &mut out);
}

// The room for the answers, 600,000 bytes: one array of that size is too much for the proof.
fn main(rt: HostRuntime) {
    let mut room = [[0u8; 300000]; 2];
    answer_input(&rt, room.as_flattened_mut());
}
