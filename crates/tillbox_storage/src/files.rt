// Files: opening, sizes, places, blocks.
ghost use Rattle.std.specs.Prelude.{◌≡◌, Ok, IfOk};
ghost use Rattle.io.specs.Counts.{IsPrefixLen};

use crate::messages;
use crate::messages::Reported;
use crate::names::split;
use std::fs::{File, OpenOptions};
use std::io::{ErrorKind, Print, Read, Seek, SeekFrom, Write};
use std::os::unix::fs::FileExt;
use std::{fs, io as system};
use tillbox_identity::text_of;

// An open file, and the name that it is told by.
#[derive(Drop)]
pub struct OpenFile<'a> {
    pub file: File,
    pub path: &'a [u8],
}

// Opens a file for reading.
pub fn open_read(rt: &HostRuntime, path: &[u8]) -> system::Result<File> {
    File::open(rt, text_of(path)?)
}

// Makes a file that is not there yet, for writing.
pub fn create(rt: &HostRuntime, path: &[u8]) -> system::Result<File> {
    OpenOptions::new()
        .write(true)
        .create_new(true)
        .open(rt, text_of(path)?)
}

// Opens a file that is there for appending: what is written stands at its end.
pub fn open_append(rt: &HostRuntime, path: &[u8]) -> system::Result<File> {
    OpenOptions::new().append(true).open(rt, text_of(path)?)
}

// Opens a file that is there for reading and writing, and leaves its bytes as they are.
fn open_update(rt: &HostRuntime, path: &[u8]) -> system::Result<File> {
    OpenOptions::new()
        .read(true)
        .write(true)
        .open(rt, text_of(path)?)
}

// Opens a file for writing, and empties it, or makes it where it is not there.
fn open_overwrite(rt: &HostRuntime, path: &[u8]) -> system::Result<File> {
    File::create(rt, text_of(path)?)
}

// What a call on a file answered. Where it failed, that and the reason is said.
fn told<T>(answer: system::Result<T>, what: &[u8], path: &[u8]) -> Result<T, Reported>
    ensures { IfOk answer (λ value. result ≡ Ok value) }
{
    match answer {
        Ok(value) => Ok(value),
        Err(error) => Err(messages::cannot(what, path, error)),
    }
}

// An input, open for reading. A folder can be opened too, but not read.
pub fn open_input<'a>(rt: &HostRuntime, path: &'a [u8]) -> Result<OpenFile<'a>, Reported> {
    let file = told(open_read(rt, path), b"open", path)?;
    let mut byte = [0u8; 1];
    told(file.read_at(&mut byte, 0), b"read", path)?;
    Ok(OpenFile { file, path })
}

// An output that is made anew.
pub fn make<'a>(rt: &HostRuntime, path: &'a [u8]) -> Result<OpenFile<'a>, Reported> {
    let file = told(open_overwrite(rt, path), b"make", path)?;
    Ok(OpenFile { file, path })
}

// A file that is not there yet, made for writing.
pub fn make_new<'a>(rt: &HostRuntime, path: &'a [u8]) -> Result<OpenFile<'a>, Reported> {
    let file = told(create(rt, path), b"make", path)?;
    Ok(OpenFile { file, path })
}

// An output that was written up to `length`, for what follows.
pub fn take_up<'a>(
    rt: &HostRuntime,
    path: &'a [u8],
    length: u64,
) -> Result<OpenFile<'a>, Reported> {
    let file = told(open_update(rt, path), b"open", path)?;
    let output = OpenFile { file, path };
    output.cut(length)?;
    Ok(output)
}

// Removes a file, if it is there. Where it could not, what comes next tells it.
pub fn remove(rt: &HostRuntime, path: &[u8]) {
    if let Ok(name) = text_of(path) {
        let _ = fs::remove_file(rt, name);
    }
}

// Gives a file another name.
fn renamed(rt: &HostRuntime, from: &[u8], to: &[u8]) -> system::Result<()> {
    fs::rename(rt, text_of(from)?, text_of(to)?)
}

// Gives a new file the name of another one, in whose place it then stands.
pub fn rename(rt: &HostRuntime, fresh: &[u8], path: &[u8]) -> Result<(), Reported> {
    told(renamed(rt, fresh, path), b"rename", fresh)
}

// Writes all bytes to standard output.
pub fn write_out(rt: &HostRuntime, bytes: &[u8]) -> Result<(), Reported> {
    told(rt.stdout().write_all(bytes), b"write", b"standard output")
}

// Has the name of a new file kept, as far as the file system can: what it could not do is no error, since the file is safe.
pub fn sync_folder(rt: &HostRuntime, path: &[u8]) {
    let (folder, _) = split(path);
    if let Ok(folder) = open_read(rt, folder) {
        let _ = folder.sync_all();
    }
}

// The size that the system told.
fn size_told(answer: system::Result<u64>, path: &[u8]) -> Result<u64, Reported>
    ensures { IfOk answer (λ size. result ≡ Ok size) }
{
    told(answer, b"find the size of", path)
}

impl OpenFile<'_> {
    // Its size in bytes.
    pub fn size(&self) -> Result<u64, Reported> {
        let mut seeker = &self.file;
        size_told(seeker.seek(SeekFrom::End(0)), self.path)
    }

    // Goes to a place.
    pub fn seek(&self, place: u64) -> Result<(), Reported> {
        let mut seeker = &self.file;
        told(
            seeker.seek(SeekFrom::Start(place)),
            b"find the place in",
            self.path,
        )?;
        Ok(())
    }

    // Reads until the buffer is full or the file ends, and answers how many bytes stand at the buffer's front.
    pub fn read_some(&self, buffer: &mut [u8]) -> Result<usize, Reported>
        ensures { IfOk result (λ count. IsPrefixLen count buffer.new) }
    {
        let mut reader = &self.file;
        let mut at = 0;
        // Kept: each read gives as many bytes as there are, so there is no range to go over.
        while at < buffer.len() {
            match reader.read(&mut buffer[at..]) {
                Ok(0) => break,
                Ok(count) => at += count,
                Err(error) => return Err(messages::cannot(b"read", self.path, error)),
            }
        }
        Ok(at)
    }

    // Reads a block, which fills the buffer. One that is cut short is an error too.
    pub fn read_block(&self, buffer: &mut [u8]) -> Result<(), Reported> {
        if self.read_some(buffer)? < buffer.len() {
            return Err(messages::wrong(self.path, b"it became shorter while it was read"));
        }
        Ok(())
    }

    // Writes all bytes.
    pub fn write(&self, bytes: &[u8]) -> Result<(), Reported> {
        let mut writer = &self.file;
        told(writer.write_all(bytes), b"write", self.path)
    }

    // Waits until all that was written is safe.
    pub fn sync(&self) -> Result<(), Reported> {
        told(self.file.sync_all(), b"sync", self.path)
    }

    // Cuts it to so many bytes.
    pub fn set_length(&self, length: u64) -> Result<(), Reported> {
        told(self.file.set_len(length), b"cut", self.path)
    }

    // Cuts an output that is taken up to `length` bytes and goes to its end.
    fn cut(&self, length: u64) -> Result<(), Reported> {
        if self.size()? < length {
            return Err(messages::wrong(self.path, b"it is shorter than the checkpoint says"));
        }
        self.set_length(length)?;
        self.seek(length)
    }

    // Makes an output safe, where it can be, and closes it: what takes everything has nothing to make safe (EINVAL). Of closing std tells
    // nothing.
    pub fn finish(self) -> Result<(), Reported> {
        match self.file.sync_all() {
            Err(error) if error.kind() == ErrorKind::InvalidInput => Ok(()),
            synced => told(synced, b"sync", self.path),
        }
    }
}
