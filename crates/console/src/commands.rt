// Each line's command is run by the function that its first word names.
use console_listing::{ending, reading, sums, writing};
use console_print::Output;
use console_script::command::Command;
use console_script::state::Console;
use console_script::words::Words;

// Runs a command; `None` where a word is out of range.
fn run(
    rt: &HostRuntime,
    command: Command,
    words: Words<'_>,
    console: &mut Console<'_>,
    out: &mut Output<'_>,
) -> Option<()> {
    match command {
        Command::Nothing => Some(()),
        Command::Unknown => None,
        Command::Table => console_setting::table(rt, words, console, out),
        Command::Bytes => console_setting::set_text(b"bytes", words, &mut console.bytes, out),
        Command::Units => console_setting::set_text(b"units", words, &mut console.units, out),
        Command::FillBytes => console_setting::fill_text(b"bytes", words, &mut console.bytes, out),
        Command::FillUnits => console_setting::fill_text(b"units", words, &mut console.units, out),
        Command::Standard => console_setting::standard(words, out),
        Command::Start => console_setting::start(words, console, out),
        Command::Run => console_setting::run(words, console, out),
        Command::Load => console_setting::load(words, console, out),
        Command::Hold => console_cutting::hold(words, console, out),
        Command::Held => console_cutting::held(words, console, out),
        Command::Field => console_cutting::field(words, console, out),
        Command::Lend => reading::lend(words, console, out),
        Command::Line => reading::read_line(words, console, out),
        Command::Lent => sums::lent(words, console, out),
        Command::Listed => ending::listed(words, console, out),
        Command::Lister => writing::begin(words, &mut console.cursor, out),
        _ => console_calling::run_call(command, words, console, out),
    }
}

// Answers one line: a line that is no command, or whose words are out of range, with `?`.
pub fn answer(rt: &HostRuntime, line: &[u8], console: &mut Console<'_>, out: &mut Output<'_>) {
    let mut words = Words::new(line);
    let command = Command::read(&mut words);
    if run(rt, command, words, console, out).is_none() {
        out.put_refusal();
    }
}
