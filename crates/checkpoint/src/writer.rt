// Writing a line, field by field. Each function writes at a place of the output and returns the place behind what it wrote.
ghost use Rattle.std.specs.Prelude.{◌≡◌, true, [], ◌∷◌, ◌++◌, ℕ, ◌+◌, ◌/◌, ◌%◌, ◌≤◌, ◌<◌, length};
ghost use Rattle.convert.specs.Runs.{valid_run};
ghost use Rattle.checkpoint.specs.Line.{hex_byte, decimal, letter_of, digits_of, hex_of, pending_of, field_of, closing_of, line_of};
ghost use Rattle.checkpoint.specs.Places.{start_fields, total_fields, Put};

use crate::words;
use convert::{Direction, Pending, Policy, Run};

// How many digits a number has.
fn decimal_len(number: u64) -> usize
    ensures value { result ≡ length (decimal number) }
    ensures upper_bound { result ≤ 20 }
{
    let mut rest = number;
    let mut size = 1;
    // Kept: it divides until one digit is left, so there is no range to go over.
    while 9 < rest {
        rest = rest / 10;
        size += 1;
    }
    size
}

// How many bytes what is pending has in the line: `-`, two hex digits, or four.
fn pending_len(pending: Pending) -> usize
    ensures value { result ≡ length (pending_of pending) }
    ensures upper_bound { result ≤ 4 }
{
    match pending {
        Pending::Nothing => 1,
        Pending::Byte(_) => 2,
        Pending::High(_) => 4,
    }
}

// How many bytes the word `on` or `over` and the line feed have.
#[tactic(auto, unfolding(crate::specs::Line::closing_of))]
fn closing_len(ended: bool) -> usize
    ensures value { result ≡ length (closing_of ended) }
    ensures upper_bound { result ≤ 5 }
{
    if ended {
        words::OVER.len()
    } else {
        words::ON.len()
    }
}

// The length of a run's line.
pub fn line_len(run: Run) -> usize
    ensures { result ≡ length (line_of run) }
{
    // `D` or `E`, three digits and seven tabs
    let fixed = 11;
    fixed
        + decimal_len(u64::from(run.page))
        + pending_len(run.pending)
        + decimal_len(u64::from(run.flags))
        + decimal_len(run.read)
        + decimal_len(run.written)
        + closing_len(run.ended)
}

// Some bytes.
fn put_bytes(bytes: &[u8], at: usize, out: &mut [u8]) -> usize
    requires { at + length bytes.now ≤ length out.old }
    ensures { Put bytes.now out.old at result out.new }
{
    // Kept: std's copy of a slice would have the archive for C ask for memmove.
    for i in 0..bytes.len() {
        out[at + i] = bytes[i];
    }
    at + bytes.len()
}

// `D` for a decoding run, `E` for an encoding one.
fn letter_byte(direction: Direction) -> u8
    ensures { letter_of direction ≡ result ∷ [] }
{
    match direction {
        Direction::Decoding => b'D',
        Direction::Encoding => b'E',
    }
}

// The letter and its tab.
fn put_letter(direction: Direction, at: usize, out: &mut [u8]) -> usize
    requires { at + length (field_of (letter_of direction)) ≤ length out.old }
    ensures { Put (field_of (letter_of direction)) out.old at result out.new }
{
    out[at] = letter_byte(direction);
    out[at + 1] = b'\t';
    at + 2
}

// A number's digits, from the last one to the first, and its tab.
fn put_number(number: u64, at: usize, out: &mut [u8]) -> usize
    requires { at + length (field_of (decimal number)) ≤ length out.old }
    ensures { Put (field_of (decimal number)) out.old at result out.new }
{
    let size = decimal_len(number);
    let mut rest = number;
    let mut i = size;
    while 0 < i {
        i -= 1;
        out[at + i] = b'0' + ((rest % 10) as u8);
        rest = rest / 10;
    }
    out[at + size] = b'\t';
    at + size + 1
}

// The three digits and their tab.
fn put_digits(policy: Policy, at: usize, out: &mut [u8]) -> usize
    requires single_bound { (policy.single < 10) × (policy.pair < 10) × (policy.invalid < 10) }
    requires policy_in_bounds { at + length (field_of (digits_of policy)) ≤ length out.old }
    ensures { Put (field_of (digits_of policy)) out.old at result out.new }
{
    out[at] = b'0' + policy.single;
    out[at + 1] = b'0' + policy.pair;
    out[at + 2] = b'0' + policy.invalid;
    out[at + 3] = b'\t';
    at + 4
}

// A capital hex digit.
fn hex_byte(value: u8) -> u8
    requires { value < 16 }
    ensures { result ≡ hex_byte value }
{
    if value < 10 {
        b'0' + value
    } else {
        b'A' + (value - 10)
    }
}

// A byte as two capital hex digits.
fn put_hex(byte: u8, at: usize, out: &mut [u8]) -> usize
    requires { at + 2 ≤ length out.old }
    ensures { Put (hex_of byte) out.old at result out.new }
{
    out[at] = hex_byte(byte / 16);
    out[at + 1] = hex_byte(byte % 16);
    at + 2
}

// A unit as four capital hex digits, its high half first.
fn put_unit(unit: u16, at: usize, out: &mut [u8]) -> usize
    requires { at + 4 ≤ length out.old }
    ensures { Put (hex_of (unit / 256) ++ hex_of (unit % 256)) out.old at result out.new }
{
    let high = (unit / 256) as u8;
    let low = (unit % 256) as u8;
    let low_at = put_hex(high, at, out);
    put_hex(low, low_at, out)
}

// What is pending, or `-`.
fn put_pending(pending: Pending, at: usize, out: &mut [u8]) -> usize
    requires { at + length (pending_of pending) ≤ length out.old }
    ensures { Put (pending_of pending) out.old at result out.new }
{
    match pending {
        Pending::Nothing => {
            out[at] = b'-';
            at + 1
        }
        Pending::Byte(byte) => put_hex(byte, at, out),
        Pending::High(unit) => put_unit(unit, at, out),
    }
}

// What is pending and its tab.
fn put_pending_field(pending: Pending, at: usize, out: &mut [u8]) -> usize
    requires { at + length (field_of (pending_of pending)) ≤ length out.old }
    ensures { Put (field_of (pending_of pending)) out.old at result out.new }
{
    let end = put_pending(pending, at, out);
    out[end] = b'\t';
    end + 1
}

// The closing word and the line feed.
fn put_closing(ended: bool, at: usize, out: &mut [u8]) -> usize
    requires { at + length (closing_of ended) ≤ length out.old }
    ensures { Put (closing_of ended) out.old at result out.new }
{
    if ended {
        put_bytes(&words::OVER, at, out)
    } else {
        put_bytes(&words::ON, at, out)
    }
}

// What the run was started with: direction, page and digits.
fn put_start(run: Run, at: usize, out: &mut [u8]) -> usize
    requires run_value { valid_run run ≡ true }
    requires run_in_bounds { at + length (start_fields run) ≤ length out.old }
    ensures { Put (start_fields run) out.old at result out.new }
{
    let direction = run.direction;
    let policy = run.policy;
    let page_at = put_letter(direction, at, out);
    let digits_at = put_number(run.page as u64, page_at, out);
    put_digits(policy, digits_at, out)
}

// What the run gathered: flags, read and written.
fn put_totals(run: Run, at: usize, out: &mut [u8]) -> usize
    requires { at + length (total_fields run) ≤ length out.old }
    ensures { Put (total_fields run) out.old at result out.new }
{
    let read_at = put_number(run.flags as u64, at, out);
    let written_at = put_number(run.read, read_at, out);
    put_number(run.written, written_at, out)
}

// The whole line, at the front of the output.
pub fn put_line(run: Run, out: &mut [u8]) -> usize
    requires run_value { valid_run run ≡ true }
    requires run_in_bounds { length (line_of run) ≤ length out.old }
    ensures { Put (line_of run) out.old 0 result out.new }
{
    let pending = run.pending;
    let pending_at = put_start(run, 0, out);
    let flags_at = put_pending_field(pending, pending_at, out);
    let closing_at = put_totals(run, flags_at, out);
    put_closing(run.ended, closing_at, out)
}
