// What is said at the end of a job, and on the way of a long one.
ghost use Rattle.std.specs.Prelude.{◌<◌};

use crate::stops;
use crate::stops::Stop;
use convert::{Direction, Pending, Policy, Run};
use tillbox_checks::kinds::{Kind, Kinds};
use tillbox_printing::Page;
use tillbox_storage::messages::{say, say_hex, say_number};

// What a run reads.
fn say_input_unit(direction: Direction) {
    match direction {
        Direction::Decoding => say(b"byte"),
        Direction::Encoding => say(b"unit"),
    }
}

// What it writes.
fn say_output_unit(direction: Direction) {
    match direction {
        Direction::Decoding => say(b"unit"),
        Direction::Encoding => say(b"byte"),
    }
}

// One line for each 4 MiB of a journal.
pub fn progress(run: Run, total: u64) {
    say(b"tillbox: read ");
    say_number(run.read);
    say(b" of ");
    say_number(total);
    say(b" ");
    say_input_unit(run.direction);
    say(b"s\n");
}

// What a run has read and written.
fn say_totals(run: Run) {
    say_sums(run.direction, run.read, run.written);
}

// How many units of input were read, and of output written.
fn say_sums(direction: Direction, read: u64, written: u64) {
    say(b"tillbox: read ");
    say_number(read);
    say(b" ");
    say_input_unit(direction);
    say(b"s, written ");
    say_number(written);
    say(b" ");
    say_output_unit(direction);
    say(b"s\n");
}

// A flag's name, where it is set, behind the names of lower ones.
fn say_flag(flags: u8, bit: u8, name: &[u8])
    requires { 0 < bit }
{
    if flags / bit % 2 == 0 {
        return;
    }
    if flags % bit != 0 {
        say(b", ");
    }
    say(name);
}

// The flags by name, and as their number.
pub fn say_flags(flags: u8) {
    say(b"tillbox: flags: ");
    if flags == 0 {
        say(b"none");
    }
    say_flag(flags, 1, b"undefined single");
    say_flag(flags, 2, b"undefined pair");
    say_flag(flags, 4, b"invalid");
    say_flag(flags, 8, b"stopped");
    say(b" (");
    say_number(flags as u64);
    say(b")\n");
}

// How many codes there were of a kind, if any, behind those of other kinds.
fn say_count(count: u64, before: u64, name: &[u8]) {
    if count == 0 {
        return;
    }
    if before != 0 {
        say(b", ");
    }
    say_number(count);
    say(b" ");
    say(name);
}

// How many codes without a character this call replaced or skipped, by kind; nothing where there were none.
pub fn say_kinds(kinds: Kinds) {
    say_by_kind(b"replaced or skipped", kinds);
}

// Numbers of codes by kind, and what they are; nothing where there are none.
pub fn say_by_kind(what: &[u8], kinds: Kinds) {
    let before = kinds.single.saturating_add(kinds.pair);
    if kinds.all() == 0 {
        return;
    }
    say(b"tillbox: ");
    say(what);
    say(b": ");
    say_count(kinds.single, 0, b"undefined single");
    say_count(kinds.pair, kinds.single, b"undefined pair");
    say_count(kinds.invalid, before, b"invalid");
    say(b"\n");
}

// What a run reads, in hex: a byte or a unit.
fn say_input(direction: Direction, unit: u16) {
    match direction {
        Direction::Decoding => say_hex((unit % 256) as u8),
        Direction::Encoding => {
            say_hex((unit / 256) as u8);
            say_hex((unit % 256) as u8);
        }
    }
}

// The first half of a character that waits for the other one.
fn say_half(direction: Direction, unit: u16) {
    say(b"the ");
    say_input_unit(direction);
    say(b" ");
    say_input(direction, unit);
    say(b", the first half of a character");
}

// What a run has pending.
fn say_pending(pending: Pending) {
    say(b"tillbox: pending: ");
    match pending {
        Pending::Nothing => say(b"nothing"),
        Pending::Byte(byte) => say_half(Direction::Decoding, byte as u16),
        Pending::High(unit) => say_half(Direction::Encoding, unit),
    }
    say(b"\n");
}

// The three digits of a policy.
pub fn say_policy(policy: Policy) {
    say_number(policy.single as u64);
    say_number(policy.pair as u64);
    say_number(policy.invalid as u64);
}

// A code's kind.
fn say_kind(kind: Kind) {
    match kind {
        Kind::Single => say(b"an undefined single"),
        Kind::Pair => say(b"an undefined pair"),
        Kind::Invalid => say(b"an invalid code"),
    }
}

// The units of a code, in hex.
fn say_code(direction: Direction, stop: Stop) {
    say_input(direction, stop.first);
    if let Some(second) = stop.second {
        say(b" ");
        say_input(direction, second);
    }
}

// Where a run was stopped: the place of the code that did it, its units and its kind, as far as it is known.
pub fn say_place(run: Run, stop: Option<Stop>) {
    let place = stop.and_then(|code| run.read.checked_sub(code.size() as u64));
    let (Some(code), Some(place)) = (stop, place) else {
        say(b"; the next unread ");
        say_input_unit(run.direction);
        say(b" is at ");
        say_number(run.read);
        say(b", counted from 0\n");
        return;
    };
    say(b" at ");
    say_input_unit(run.direction);
    say(b" ");
    say_number(place);
    say(b", counted from 0: ");
    say_code(run.direction, code);
    say(b", ");
    say_kind(code.kind);
    say(b"\n");
}

// How to go on where a run was stopped.
pub fn say_way_on() {
    say(
        b"tillbox: to go on, mend the input there, or call again with policy 555, which writes the table's default for such a code\n",
    );
}

// Why and where a run was stopped, and what is to be done before it is called again.
fn say_stop(run: Run, stop: Option<Stop>, checkpoint: Option<&[u8]>) {
    say(b"tillbox: stopped by policy ");
    say_policy(run.policy);
    say_place(run, stop);
    say_way_on();
    if let Some(path) = checkpoint {
        say(b"tillbox: the run of the checkpoint has ended: remove ");
        say(path);
        say(b" before you call again\n");
    }
}

// Decoding or encoding, in words.
fn say_direction(direction: Direction) {
    match direction {
        Direction::Decoding => say(b"decoding"),
        Direction::Encoding => say(b"encoding"),
    }
}

// Says of which direction and page the run of a line is, which are asked for, and what to do.
pub fn other_run(run: Run, asked: Direction, page: u16) {
    say(b"  the line is of a run ");
    say_direction(run.direction);
    say(b" page ");
    say_number(run.page as u64);
    say(b"; asked for is ");
    say_direction(asked);
    say(b" page ");
    say_number(page as u64);
    say(
        b"\n  Name the command and the table that the checkpoint was begun with, or another checkpoint.\n",
    );
}

// Says which digits are not allowed, and which are.
pub fn digits_refused(policy: Policy, direction: Direction) {
    say(b"  the digits are ");
    say_policy(policy);
    say(b"; each is 0 to 5");
    if let Direction::Decoding = direction {
        say(b", and the first may be 6");
    }
    say(b"\n");
}

// Says that there is more input than a run that has ended was given. Where it was stopped, the summary says what to do.
pub fn more_input(run: Run, total: u64, checkpoint: &[u8]) {
    say(b"  it has read ");
    say_number(run.read);
    say(b" of the ");
    say_number(total);
    say(b" ");
    say_input_unit(run.direction);
    say(b"s that are there now\n");
    if stops::is_stopped(run) {
        return;
    }
    say(b"  To convert all of them, remove ");
    say(checkpoint);
    say(b" and call again.\n");
}

// The summary of a run, and how to go on where it was stopped.
pub fn summary(run: Run, stop: Option<Stop>, kinds: Kinds, checkpoint: Option<&[u8]>) {
    say_totals(run);
    say_flags(run.flags);
    say_kinds(kinds);
    say_pending(run.pending);
    if stops::is_stopped(run) {
        say_stop(run, stop, checkpoint);
    }
    if run.ended {
        say(b"tillbox: the run has ended\n");
    } else {
        say(b"tillbox: the run goes on\n");
    }
}

// The summary of a receipt whose lines were broken.
pub fn printed(page: Page) {
    let run = page.run;
    let kinds = page.kinds;
    say_sums(run.direction, run.read, page.written);
    say(b"tillbox: printed lines: ");
    say_number(page.printed);
    say(b"\ntillbox: lines not broken: ");
    say_number(page.unbroken);
    say(b"\n");
    say_replaced(kinds.all());
    say_flags(run.flags);
    say_kinds(kinds);
}

// How many characters were replaced.
fn say_replaced(replaced: u64) {
    say(b"tillbox: characters replaced: ");
    say_number(replaced);
    say(b"\n");
}

// The summary of a receipt's preview.
pub fn preview(run: Run, kinds: Kinds) {
    say_totals(run);
    say_replaced(kinds.all());
    say_flags(run.flags);
    say_kinds(kinds);
}
