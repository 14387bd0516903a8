// What is said of a listing that is refused: the line's number, the line, what is wrong with it, and what to do next.
use crate::faults;
use crate::faults::{Fault, FormFault, NeedFault, OrderFault};
use crate::state::ReadState;
use listing::Refusal;
use tillbox_storage::messages::{Reported, say, say_hex, say_number};

// A byte of a line: a tab as `>`, no line feed, and what can not be printed in hex.
fn say_byte(byte: u8) {
    match byte {
        b'\t' => say(b">"),
        b'\n' => {}
        0x20..=0x7E => say(&[byte]),
        _ => {
            say(b"\\x");
            say_hex(byte);
        }
    }
}

// A line, tabs as `>`.
fn say_line(line: &[u8]) {
    for byte in line {
        say_byte(*byte);
    }
}

// The form of a record, tabs as `>`.
fn say_form(letter: u8) {
    say(b"its form is ");
    match letter {
        b'P' => say(b"P>PAGE, a decimal number of 1 to 65,535 with no spare zero"),
        b'D' => say(b"D>BYTE>UNIT, a byte of two hex digits and a unit of four"),
        b'S' => say(b"S>BYTE>UNIT, a byte of two hex digits and a unit of four, or - for the unit"),
        b'L' => say(b"L>BYTE, a byte of two hex digits"),
        b'T' => say(b"T>BYTE, a byte of two hex digits"),
        b'M' => say(b"M>CODE>UNIT, a code and a unit of four hex digits each"),
        _ => say(b"W>UNIT>CODE, a unit and a code of four hex digits each"),
    }
}

// What breaks the form.
fn say_form_fault(fault: FormFault) {
    match fault {
        FormFault::Empty => say(b"it is empty: each line is a record"),
        FormFault::NoLineFeed => say(b"no line feed closes it"),
        FormFault::TooLong => say(b"it has more bytes than any record"),
        FormFault::CarriageReturn => say(
            b"it has a carriage return: a line feed alone closes a line",
        ),
        FormFault::Space => say(
            b"it has a space: tabs part the fields, and nothing follows the last one",
        ),
        FormFault::SmallLetter => say(b"it has a small letter: letters and hex digits are capital"),
        FormFault::NoneOnTheRight => say(
            b"FFFF on the right: a byte S without a character has -, and an M or W without one is left out",
        ),
        FormFault::Form(letter) => say_form(letter),
        FormFault::NoLetter => say(b"it begins with none of the letters P, D, S, L, T, M, W"),
    }
}

// What breaks the order.
fn say_order_fault(fault: OrderFault) {
    match fault {
        OrderFault::NoPage => say(b"P is missing: the first line is the page"),
        OrderFault::NoDefaults => say(
            b"D is missing: the second line has the default byte and the default unit",
        ),
        OrderFault::PageAgain => say(b"P again: it comes once, first"),
        OrderFault::DefaultsAgain => say(b"D again: it comes once, second"),
        OrderFault::KeyAgain => say(
            b"the line before it has the same left side: each is listed once",
        ),
        OrderFault::KeyOrder => say(
            b"its left side is below that of the line before: they rise within a letter",
        ),
        OrderFault::LetterOrder => say(
            b"its letter comes too late: the letters come in the order P, D, S, L, T, M, W",
        ),
    }
}

// What a record needs.
fn say_need_fault(fault: NeedFault) {
    match fault {
        NeedFault::LowLead => say(b"no lead byte is below 80"),
        NeedFault::SingleAsLead => say(b"its byte is listed as S: a byte is not both S and L"),
        NeedFault::NoLead => say(b"the first byte of its code is not listed as L"),
        NeedFault::NoTrail => say(b"the second byte of its code is not listed as T"),
    }
}

// What is wrong with a line.
fn say_fault(fault: Fault) {
    match fault {
        Fault::Form(form) => say_form_fault(form),
        Fault::Order(order) => say_order_fault(order),
        Fault::Need(need) => say_need_fault(need),
    }
}

// What to do next.
fn say_next(table: &[u8]) {
    say(b"tillbox: ");
    say(table);
    say(b" is as it was: mend the listing and call again\n");
}

// The number of a refusal, and which line of a file it is about.
fn say_place(number: u8, line: u64, listing: &[u8]) {
    say(b"tillbox: error ");
    say_number(number as u64);
    say(b": line ");
    say_number(line);
    say(b" of ");
    say(listing);
    say(b": ");
}

// A line that was refused, shown as far as it was kept.
pub fn say_refusal(
    why: Refusal,
    state: &ReadState,
    classes: &[u8],
    listing: &[u8],
    table: &[u8],
) -> Reported {
    say_place(why.number(), state.lines.saturating_add(1), listing);
    match why {
        Refusal::BadLine => say_fault(faults::fault_of(state.progress, state.line(), classes)),
        Refusal::TooSmall => say(b"the memory of this program is too small for it"),
    }
    say(b"\n  ");
    say_line(state.line());
    if state.cut {
        say(b"...");
    }
    say(b"\n");
    say_next(table);
    Reported
}

// A listing whose end was refused.
pub fn say_end(why: Refusal, lines: u64, listing: &[u8], table: &[u8]) -> Reported {
    say(b"tillbox: error ");
    say_number(why.number() as u64);
    say(b": ");
    say(listing);
    say(b": it ends behind line ");
    say_number(lines);
    say(b", before P and D have come\n");
    say_next(table);
    Reported
}
