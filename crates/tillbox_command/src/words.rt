// What a call asks for, by the words before the names of its files.
use crate::options;
use crate::options::Options;
use convert::{Direction, Policy};
use tillbox_jobs::job::{Job, Output};
use tillbox_storage::messages::{Reported, say};
use tillbox_why::Asked;

// The commands that have files.
#[derive(Clone, Copy)]
pub enum Command {
    // `decode`, `encode` and `preview`.
    Convert(Job),
    Import(Policy),
    Listing,
    Shape,
    Spell,
    Table,
    Why(Asked),
}

// A command, which argument is the first name, and how many names there are.
#[derive(Clone, Copy)]
pub struct Call {
    pub command: Command,
    pub first: usize,
    pub names: usize,
}

// Says what is wrong with the words of the call, and where the right ones are.
fn misused(what: &[u8]) -> Reported {
    say(b"tillbox: error: ");
    say(what);
    say(b"\ntillbox: the words of a call: tillbox help\n");
    Reported
}

// A call with so many names from an argument on. Where there are more or fewer, that is said.
fn with_names(
    rt: &HostRuntime,
    command: Command,
    first: usize,
    names: usize,
) -> Result<Call, Reported> {
    if options::names_from(rt, first) != names {
        return Err(misused(match names {
            1 => b"one name of a file is asked for",
            2 => b"two names of files are asked for",
            _ => b"three names of files are asked for",
        }));
    }
    Ok(Call {
        command,
        first,
        names,
    })
}

// The policy that was asked for, if one was.
fn policy_of(chosen: Options) -> Result<Option<Policy>, Reported> {
    match chosen.policy {
        Ok(policy) => Ok(policy),
        Err(_) => Err(misused(b"a policy is three digits")),
    }
}

// `decode` and `encode`: the words before the names, and three files or, with a checkpoint, four. Without one the end of the input is the
// text's end.
fn convert_call(rt: &HostRuntime, direction: Direction) -> Result<Call, Reported> {
    let chosen = Options::chosen_from(rt, 2);
    let policy = policy_of(chosen)?;
    let names = options::names_from(rt, chosen.next);
    if names != 3 && names != 4 {
        return Err(misused(b"three or four names of files are asked for"));
    }
    let job = Job {
        direction,
        policy,
        last: chosen.last || names == 3,
        output: Output::Text,
    };
    Ok(Call {
        command: Command::Convert(job),
        first: chosen.next,
        names,
    })
}

// The receipt that the printer would get, its lines broken to a width if there is one (CR 12), from an argument on, where no word but names may
// stand. It gets through, under 555 by name, and counts what it replaces (CR 4).
fn preview_from(rt: &HostRuntime, first: usize, output: Output) -> Result<Call, Reported> {
    let words = Options::chosen_from(rt, first);
    if words.last || !matches!(words.policy, Ok(None)) {
        return Err(misused(
            b"preview takes no policy and no last: it encodes the whole ledger, under policy 555",
        ));
    }
    let job = Job {
        direction: Direction::Encoding,
        policy: Some(Policy::replacing()),
        last: true,
        output,
    };
    with_names(rt, Command::Convert(job), first, 3)
}

// The words of a preview.
fn preview_call(rt: &HostRuntime) -> Result<Call, Reported> {
    if !options::is_word(rt, 2, b"width") {
        return preview_from(rt, 2, Output::Preview);
    }
    match options::width_at(rt, 3) {
        Some(width) => preview_from(rt, 4, Output::Printed(width)),
        None => Err(misused(b"a width is a number of 1 to 65,536")),
    }
}

// The policy of an import and of the findings: the one that was asked for, or 555 by name, so that a damaged night is got through (CR 4).
fn through_policy(chosen: Options) -> Result<Policy, Reported> {
    Ok(policy_of(chosen)?.unwrap_or(Policy::replacing()))
}

// `import`: a policy, if one is asked for, and three files.
fn import_call(rt: &HostRuntime) -> Result<Call, Reported> {
    let chosen = Options::chosen_from(rt, 2);
    let policy = through_policy(chosen)?;
    if chosen.last {
        return Err(misused(b"import has no word last: the journal is complete"));
    }
    with_names(rt, Command::Import(policy), chosen.next, 3)
}

// `why`: a policy and the lines around, if they are asked for, and two files.
fn why_call(rt: &HostRuntime) -> Result<Call, Reported> {
    let chosen = Options::chosen_for_why(rt);
    let asked = Asked {
        policy: through_policy(chosen)?,
        context: chosen.context,
    };
    with_names(rt, Command::Why(asked), chosen.next, 2)
}

// The command that the first word names.
fn call_of(rt: &HostRuntime, word: &[u8]) -> Result<Call, Reported> {
    match word {
        b"decode" => convert_call(rt, Direction::Decoding),
        b"encode" => convert_call(rt, Direction::Encoding),
        b"import" => import_call(rt),
        b"preview" => preview_call(rt),
        b"spell" => with_names(rt, Command::Spell, 2, 3),
        b"why" => why_call(rt),
        b"shape" => with_names(rt, Command::Shape, 2, 1),
        b"listing" => with_names(rt, Command::Listing, 2, 2),
        b"table" => with_names(rt, Command::Table, 2, 2),
        _ => Err(misused(b"no such command")),
    }
}

// What the words of the call ask for.
pub fn read(rt: &HostRuntime) -> Result<Call, Reported> {
    if options::count(rt) < 2 {
        return Err(misused(b"a command is asked for"));
    }
    let mut buffer = [0u8; 16];
    call_of(rt, options::word_at(rt, 1, &mut buffer).unwrap_or(b""))
}
