// What is said of lines that are not spelled.
use spelling::Refusal;
use tillbox_storage::messages::{say, say_hex, say_number};

// Says that a line is not spelled.
fn say_line(number: u64) {
    say(b"tillbox: line ");
    say_number(number);
    say(b" is not spelled: ");
}

// The bytes of the code at a place of a line, in hex. Tables of another size than a call accepts tell no code: then it is one byte.
fn say_code(classes: &[u8], line: &[u8], place: usize) {
    let Some(first) = line.get(place) else {
        return;
    };
    say_hex(*first);
    if classes.len() != 256 || codepage_walk::code_size(classes, line, place) != 2 {
        return;
    }
    if let Some(second) = line.get(place + 1) {
        say(b" ");
        say_hex(*second);
    }
}

// A line that is longer than a text may be.
pub fn say_long(number: u64) {
    say_line(number);
    say(b"it has over 65,536 bytes\n");
}

// Why a line was refused.
pub fn say_refusal(number: u64, why: Refusal, classes: &[u8], line: &[u8]) {
    match why {
        Refusal::AtFault(place) => {
            say_line(number);
            say(b"the code at byte ");
            say_number(place as u64);
            say(b", counted from 0, has no standard spelling: ");
            say_code(classes, line, place);
            say(b"\n");
        }
        Refusal::SpellingTooLong => {
            say_line(number);
            say(b"its spelling would have over 65,536 bytes\n");
        }
        Refusal::TooLong => say_long(number),
        Refusal::BadShape => {
            say_line(number);
            say(b"the shape of the tables is not good\n");
        }
    }
}
