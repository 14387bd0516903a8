// Inner: one job at a time on one checkpoint. The lock is a file beside it with an entry for each job that came: its process and
// the descriptor that it has the lock open on. Entries are appended, so that they have an order, and the first one whose process still has
// the lock open is that of the job at work. A job that is killed has it open no more; one that ends removes the file.

#![tactic(auto)]

mod entries;

use crate::entries::Entry;
use arrayvec::ArrayString;
use std::fmt::Write;
use std::fs::File;
use std::io::{Error, ErrorKind, Seek, SeekFrom};
use std::os::fd::AsRawFd;
use std::os::unix::fs::FileExt;
use std::process;
use tillbox_identity::Identity;
use tillbox_layout::front_len;
use tillbox_storage::files::OpenFile;
use tillbox_storage::messages::Reported;
use tillbox_storage::names::with_beside;
use tillbox_storage::{files, messages};

// A lock that this job holds: the open file, and the checkpoint that it stands beside.
#[derive(Drop)]
pub struct Lock<'a> {
    file: File,
    checkpoint: &'a [u8],
}

// How often a lock that changes is asked for.
const TRIES: u64 = 1000;

// The most bytes of a lock that are looked at: the entries of some hundred jobs that were killed.
const LONGEST: u64 = 4096;

// Says that another job is at work.
fn say_worker(process: u64, checkpoint: &[u8]) -> Reported {
    messages::say(b"tillbox: error: ");
    messages::say(checkpoint);
    messages::say(b": another job (process ");
    messages::say_number(process);
    messages::say(b") is at work on this checkpoint\n");
    Reported
}

// The number of this process.
fn own_number(rt: &HostRuntime) -> u64 {
    process::id(rt.process()) as u64
}

// Refuses a lock that another process is at work on, by the entries in the first `size` bytes.
fn check_free(
    rt: &HostRuntime,
    reader: &File,
    size: u64,
    lock: Identity,
    checkpoint: &[u8],
) -> Result<(), Reported> {
    let mut bytes = io::buffer();
    let got = reader.read_at(&mut bytes, 0).unwrap_or(0);
    let count = front_len(got.min(size as usize), &bytes);
    match entries::worker_in(rt, &bytes[..count], lock, own_number(rt)) {
        Some(process) => Err(say_worker(process, checkpoint)),
        None => Ok(()),
    }
}

// Where an open file is read or written next, or 0.
fn place_in(file: &File) -> u64 {
    let mut seeker = file;
    seeker.seek(SeekFrom::Current(0)).unwrap_or(0)
}

// Appends the entry of this job to an open lock, and answers where it begins. A lock that is longer than can be looked at is refused.
fn append(rt: &HostRuntime, lock: &OpenFile<'_>) -> Result<u64, Reported> {
    let entry = Entry {
        process: own_number(rt),
        descriptor: u64::try_from(lock.file.as_raw_fd()).unwrap_or(0),
    };
    let mut text = ArrayString::<64>::new();
    let _ = write!(text, "{entry}");
    let bytes = text.as_str().as_bytes();
    lock.write(bytes)?;
    let place = place_in(&lock.file).saturating_sub(bytes.len() as u64);
    if LONGEST < place {
        return Err(messages::wrong(
            lock.path,
            b"it has the entries of too many jobs; where none of them is at work, remove it",
        ));
    }
    Ok(place)
}

// Enters a lock that is open for appending and for reading. None where another file came in between.
fn enter(
    rt: &HostRuntime,
    file: File,
    reader: &File,
    path: &[u8],
    checkpoint: &[u8],
) -> Result<Option<File>, Reported> {
    let (Ok(known), Ok(read)) = (tillbox_identity::of(&file), tillbox_identity::of(reader)) else {
        return Ok(None);
    };
    let identity = known.identity;
    if identity != read.identity {
        return Ok(None);
    }
    check_free(rt, reader, LONGEST, identity, checkpoint)?;
    let lock = OpenFile { file, path };
    let place = append(rt, &lock)?;
    check_free(rt, reader, place, identity, checkpoint)?;
    // An earlier job may have removed the lock at its end: behind the look at the entries, so that none of them can do it later.
    match tillbox_identity::at(rt, path) {
        Ok(named) if named.identity == identity => Ok(Some(lock.file)),
        _ => Ok(None),
    }
}

// Makes a lock file, if there is none.
fn make(rt: &HostRuntime, path: &[u8]) -> Result<(), Reported> {
    match files::create(rt, path) {
        Err(error) if error.kind() != ErrorKind::AlreadyExists => {
            Err(messages::cannot(b"make", path, error))
        }
        _ => Ok(()),
    }
}

// A lock file that could not be opened: it was removed in between, or the reason is said.
fn unopened(path: &[u8], error: Error) -> Result<Option<File>, Reported> {
    if error.kind() == ErrorKind::NotFound {
        return Ok(None);
    }
    Err(messages::cannot(b"open", path, error))
}

// Asks for a lock once. None where another file came in between.
fn ask(rt: &HostRuntime, path: &[u8], checkpoint: &[u8]) -> Result<Option<File>, Reported> {
    make(rt, path)?;
    let file = match files::open_append(rt, path) {
        Ok(file) => file,
        Err(error) => return unopened(path, error),
    };
    match files::open_read(rt, path) {
        Ok(reader) => enter(rt, file, &reader, path, checkpoint),
        Err(error) => unopened(path, error),
    }
}

// Asks for a lock until it does not change.
fn ask_often(rt: &HostRuntime, path: &[u8], checkpoint: &[u8]) -> Result<File, Reported> {
    for _ in 0..TRIES {
        if let Some(file) = ask(rt, path, checkpoint)? {
            return Ok(file);
        }
    }
    Err(messages::wrong(path, b"other jobs make and remove it all the time"))
}

// Takes the lock of a checkpoint. The file beside the checkpoint is a plain file or not there.
pub fn take<'a>(rt: &HostRuntime, checkpoint: &'a [u8]) -> Result<Lock<'a>, Reported> {
    let file = with_beside(checkpoint, b".lock", |path| ask_often(rt, path, checkpoint))?;
    Ok(Lock { file, checkpoint })
}

// Removes the file of a lock.
fn remove(rt: &HostRuntime, path: &[u8]) -> Result<(), Reported> {
    files::remove(rt, path);
    Ok(())
}

impl Lock<'_> {
    // Removes the lock, and closes it then.
    pub fn release(self, rt: &HostRuntime) {
        let _ = with_beside(self.checkpoint, b".lock", |path| remove(rt, path));
    }
}
