// The descriptors that a program begins with.
use std::fs::{File, OpenOptions};
use std::io;
use std::os::fd::{AsRawFd, IntoRawFd};

// How many descriptors a program is given: standard input, output and error.
const GIVEN: i32 = 3;

// Opens what takes everything and gives nothing.
fn open_null(rt: &HostRuntime) -> io::Result<File> {
    OpenOptions::new()
        .read(true)
        .write(true)
        .open(rt, "/dev/null")
}

// Opens a descriptor on nothing, and keeps it open where it is one of the three: the system gives the lowest one that is free.
fn open_if_closed(rt: &HostRuntime) {
    if let Ok(file) = open_null(rt) {
        if file.as_raw_fd() < GIVEN {
            file.into_raw_fd();
        }
    }
}

// Opens what is closed of standard input, output and error, in that order, so that no file of a job gets their numbers and no
// message is written into it.
pub fn open_closed(rt: &HostRuntime) {
    for _ in 0..GIVEN {
        open_if_closed(rt);
    }
}
