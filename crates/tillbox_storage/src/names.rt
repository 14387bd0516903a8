// The names of a job's files: one that is of no plain file, and two of one file, are refused before anything is opened for writing.
// Files are told apart by device and file number; one that is not there yet by its folder and its name in it.
ghost use Rattle.std.specs.Prelude.{IfSome};
ghost use Rattle.io.specs.Counts.{IsPrefixLen};

use crate::messages;
use crate::messages::{Reported, say};
use tillbox_identity::at;

// The folder that a path stands in, and its name there.
pub fn split(path: &[u8]) -> (&[u8], &[u8]) {
    match path.iter().rposition(|byte| *byte == b'/') {
        Some(slash) => path.split_at(slash + 1),
        None => (b".", path),
    }
}

// Whether two paths, of no file yet, would be of one file.
fn would_be_one(rt: &HostRuntime, a: &[u8], b: &[u8]) -> bool {
    let (folder, name) = split(a);
    let (other_folder, other_name) = split(b);
    if name != other_name {
        return false;
    }
    match (at(rt, folder), at(rt, other_folder)) {
        (Ok(known), Ok(other)) => known.identity == other.identity,
        _ => false,
    }
}

// Whether two paths are of one file.
fn are_one(rt: &HostRuntime, a: &[u8], b: &[u8]) -> bool {
    if a == b {
        return true;
    }
    match (at(rt, a), at(rt, b)) {
        (Ok(file), Ok(other)) => file.identity == other.identity,
        (Err(_), Err(_)) => would_be_one(rt, a, b),
        _ => false,
    }
}

// Whether two paths are of two files. Where they are of one, that is said.
pub fn check_apart(rt: &HostRuntime, a: &[u8], b: &[u8]) -> Result<(), Reported> {
    if !are_one(rt, a, b) {
        return Ok(());
    }
    if a == b {
        return Err(messages::wrong(a, b"two of the files have this name"));
    }
    say(b"tillbox: error: ");
    say(a);
    say(b": it is the same file as ");
    say(b);
    say(b"\n");
    Err(Reported)
}

// Whether a path is of a plain file, or of none. Where it is not, that is said.
pub fn check_plain(rt: &HostRuntime, path: &[u8]) -> Result<(), Reported> {
    match at(rt, path) {
        Ok(file) if !file.is_plain => Err(messages::wrong(
            path,
            b"it is no plain file, but a folder, a pipe or a device",
        )),
        _ => Ok(()),
    }
}

// Whether a path is of the file that takes everything.
fn takes_everything(rt: &HostRuntime, path: &[u8]) -> bool {
    match (at(rt, path), at(rt, b"/dev/null")) {
        (Ok(file), Ok(null)) => file.identity == null.identity,
        _ => false,
    }
}

// Whether a path can be that of an output: a plain file, one to be made, or what takes everything. A link to a file that is not there
// is none: it can not be told apart from that file. Where it can not, that is said.
pub fn check_output(rt: &HostRuntime, path: &[u8]) -> Result<(), Reported> {
    if takes_everything(rt, path) {
        return Ok(());
    }
    if at(rt, path).is_err() && tillbox_identity::is_link(rt, path) {
        return Err(messages::wrong(path, b"it is a link to a file that is not there"));
    }
    check_plain(rt, path)
}

// Whether a path can be that of a checkpoint or of what stands beside it: a plain file, or one to be made. It is replaced by a new
// file, so that a link would be lost, and the file behind it left. Where it can not, that is said.
pub fn check_replaced(rt: &HostRuntime, path: &[u8]) -> Result<(), Reported> {
    if tillbox_identity::is_link(rt, path) {
        return Err(messages::wrong(path, b"it is a link; name the file itself"));
    }
    check_plain(rt, path)
}

// Puts a path with an ending behind it at the front of a buffer and answers its length, or none where it does not fit.
fn beside(path: &[u8], ending: &[u8], buffer: &mut [u8]) -> Option<usize>
    ensures { IfSome result (λ count. IsPrefixLen count buffer.new) }
{
    let room = buffer.len().checked_sub(ending.len())?;
    let at = path.len();
    if room < at {
        return None;
    }
    let end = at + ending.len();
    buffer[..at].copy_from_slice(path);
    buffer[at..end].copy_from_slice(ending);
    Some(end)
}

// Does something with the path that stands beside another one, with an ending behind it. Where it is too long, that is said.
#[inline(never)]
pub fn with_beside<T, F: FnOnce(&[u8]) -> Result<T, Reported>>(
    path: &[u8],
    ending: &[u8],
    act: F,
) -> Result<T, Reported>
    requires { F.IsAlwaysCallable act }
{
    let mut buffer = io::buffer();
    match beside(path, ending, &mut buffer) {
        Some(count) => act(&buffer[..count]),
        None => Err(messages::wrong(path, b"the name is too long")),
    }
}
