// The entries of a lock, and which of them is of a job at work.
use arrayvec::ArrayString;
use std::fmt;
use std::fmt::Write;
use tillbox_identity::{Identity, Known, Unknown};

// The greatest number that a process can have.
const PROCESS_LIMIT: u64 = 2147483647;

// An entry: a process, and the descriptor that it has the lock open on.
#[derive(Clone, Copy)]
pub struct Entry {
    pub process: u64,
    pub descriptor: u64,
}

// The line feed before it closes an entry that was written in part.
impl fmt::Display for Entry {
    fn fmt<W: fmt::Write>(&self, f: &mut fmt::Formatter<W>) -> fmt::Result {
        let process = self.process;
        let descriptor = self.descriptor;
        write!(f, "\n{process} {descriptor}\n")
    }
}

// The value of a digit.
fn digit_of(byte: u8) -> Option<u64> {
    match byte {
        b'0'..=b'9' => Some((byte - b'0') as u64),
        _ => None,
    }
}

// A number in decimal digits. One that is too large is the greatest.
fn number_of(digits: &[u8]) -> Option<u64> {
    if digits.is_empty() {
        return None;
    }
    let mut number: u64 = 0;
    for byte in digits {
        number = number.saturating_mul(10).saturating_add(digit_of(*byte)?);
    }
    Some(number)
}

// What the system shows of a process, under a name in its folder.
fn shown(rt: &HostRuntime, process: u64, name: &str) -> Result<Known, Unknown> {
    let mut path = ArrayString::<64>::new();
    let _ = write!(path, "/proc/{process}{name}");
    tillbox_identity::at(rt, path.as_str().as_bytes())
}

// Whether there is a process of this number: the system shows it, or shows none at all, not even this one.
fn is_there(rt: &HostRuntime, process: u64) -> bool {
    shown(rt, process, "").is_ok() || tillbox_identity::at(rt, b"/proc/self").is_err()
}

impl Entry {
    // The entry that a line is.
    fn of_line(line: &[u8]) -> Option<Entry> {
        let space = line.iter().position(|byte| *byte == b' ')?;
        let process = number_of(&line[..space])?;
        let descriptor = number_of(&line[space + 1..])?;
        if PROCESS_LIMIT < process {
            return None;
        }
        Some(Entry {
            process,
            descriptor,
        })
    }

    // Whether its process has the lock open on its descriptor. Where the system shows the process's descriptors to us, that is looked at:
    // a process that ended may have left its number to another one. Where it does not, it is asked whether the process is there.
    fn is_at_work(self, rt: &HostRuntime, lock: Identity) -> bool {
        let mut name = ArrayString::<32>::new();
        let descriptor = self.descriptor;
        let _ = write!(name, "/fd/{descriptor}");
        match shown(rt, self.process, name.as_str()) {
            Ok(file) => file.identity == lock,
            Err(Unknown::Missing) if shown(rt, self.process, "").is_ok() => false,
            Err(_) => is_there(rt, self.process),
        }
    }
}

// The first process of some entries that is at work, but for `own`. What stands behind the last line feed is no entry yet. No job has the
// process 0: an entry of it that is taken for one at work ends the search.
pub fn worker_in(rt: &HostRuntime, entries: &[u8], lock: Identity, own: u64) -> Option<u64> {
    for line in entries.split_inclusive(|byte| *byte == b'\n') {
        if let Some(entry) = line.strip_suffix(b"\n").and_then(Entry::of_line)
            && entry.process != own
            && entry.is_at_work(rt, lock)
        {
            return if entry.process == 0 {
                None
            } else {
                Some(entry.process)
            };
        }
    }
    None
}
