// Inner: which file is open or a name stands for, by its device and its number there, and of what kind it is.

#![tactic(auto)]

mod path;

pub use crate::path::text_of;
use std::fs::{File, Metadata};
use std::io::ErrorKind;
use std::os::unix::fs::MetadataExt;
use std::{fs, io};

// Which file it is: its device, and its number there.
#[derive(Clone, Copy, PartialEq, Eq)]
pub struct Identity {
    device: u64,
    number: u64,
}

// What the system tells of a file.
#[derive(Clone, Copy)]
pub struct Known {
    pub identity: Identity,
    // Whether it is a plain file: no folder, pipe or device.
    pub is_plain: bool,
}

// Why the system tells nothing of a file.
#[derive(Clone, Copy, PartialEq, Eq)]
pub enum Unknown {
    // There is no such file.
    Missing,
    // Another reason.
    Untold,
}

impl From<Metadata> for Known {
    fn from(record: Metadata) -> Known {
        Known {
            identity: Identity {
                device: record.dev(),
                number: record.ino(),
            },
            is_plain: record.is_file(),
        }
    }
}

impl From<io::Error> for Unknown {
    fn from(error: io::Error) -> Unknown {
        match error.kind() {
            ErrorKind::NotFound => Unknown::Missing,
            _ => Unknown::Untold,
        }
    }
}

// Which file is open.
pub fn of(file: &File) -> Result<Known, Unknown> {
    Ok(file.metadata()?.into())
}

// Which file a path names, links followed.
pub fn at(rt: &HostRuntime, path: &[u8]) -> Result<Known, Unknown> {
    Ok(fs::metadata(rt, text_of(path)?)?.into())
}

// Whether a path names a link.
pub fn is_link(rt: &HostRuntime, path: &[u8]) -> bool {
    link_at(rt, path).unwrap_or(false)
}

// The same, or why the system did not tell it.
fn link_at(rt: &HostRuntime, path: &[u8]) -> io::Result<bool> {
    Ok(fs::symlink_metadata(rt, text_of(path)?)?.is_symlink())
}
