// Messages: words and numbers written to a stream, and the meaning of each number that a call can refuse with.
use crate::reason;
use convert::Answer;
use std::io::Error;

// Something failed, and the reason was said.
#[derive(Clone, Copy)]
pub struct Reported;

// Standard output and standard error, by their descriptors.
#[derive(Clone, Copy)]
pub enum Stream {
    Out = 1,
    Err = 2,
}

const HEX_DIGITS: [u8; 16] = *b"0123456789ABCDEF";

impl Stream {
    // Some bytes.
    pub fn put(self, text: &[u8]) {
        io::write_all(self as i32, text);
    }

    // A number in decimal.
    pub fn put_number(self, number: u64) {
        io::print_decimal(self as i32, number);
    }

    // A byte as two capital hex digits.
    pub fn put_hex(self, byte: u8) {
        let digits = [
            HEX_DIGITS[(byte / 16) as usize],
            HEX_DIGITS[(byte % 16) as usize],
        ];
        self.put(&digits);
    }
}

// Some bytes, on standard error.
pub fn say(text: &[u8]) {
    Stream::Err.put(text);
}

// A number in decimal, on standard error.
pub fn say_number(number: u64) {
    Stream::Err.put_number(number);
}

// A byte as two hex digits, on standard error.
pub fn say_hex(byte: u8) {
    Stream::Err.put_hex(byte);
}

// Says that something could not be done with a file, and the system's reason.
pub fn cannot(what: &[u8], path: &[u8], error: Error) -> Reported {
    say(b"tillbox: error: cannot ");
    say(what);
    say(b" ");
    say(path);
    say(b": ");
    reason::put(error, Stream::Err);
    say(b"\n");
    Reported
}

// Says what is wrong with a file.
pub fn wrong(path: &[u8], what: &[u8]) -> Reported {
    say(b"tillbox: error: ");
    say(path);
    say(b": ");
    say(what);
    say(b"\n");
    Reported
}

// The meaning of a number that documents 01 and 02 give a refusal.
fn meaning(number: u8) -> &'static [u8] {
    match number {
        2 => b"the next code does not fit",
        10 => b"the shape of the tables is not good",
        11 => b"the piece has over 65,536 units",
        12 => b"the run breaks the run rules",
        13 => b"the run is of the other direction or of another page",
        14 => b"the pending byte is no lead byte in these tables",
        15 => b"the run has ended",
        16 => b"the input has over 4,294,967,295 units",
        17 => b"the page is 0, or a policy digit is not allowed",
        18 => b"not a saved line",
        19 => b"the line does not fit the room",
        21 => b"a field has over 256 units",
        _ => b"no meaning",
    }
}

// Says the number that a call refused with, its meaning, and which file it is about.
pub fn refuse(number: u8, path: &[u8]) -> Reported {
    say(b"tillbox: error ");
    say_number(number as u64);
    say(b": ");
    say(meaning(number));
    say(b" (");
    say(path);
    say(b")\n");
    Reported
}

// Whether a run call with room enough was taken. Where it was not, that is said.
pub fn taken(answer: Answer, path: &[u8]) -> Result<(), Reported> {
    match answer {
        Answer::AllRead | Answer::UnitPending | Answer::Stopped => Ok(()),
        _ => Err(refuse(answer.number(), path)),
    }
}
