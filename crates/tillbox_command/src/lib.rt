// Inner: the commands of tillbox, from the words of a call to its last word and its exit status. It converts whole files between a
// till's code page bytes and UTF-16LE, with checkpoints, imports a journal's records, tells its findings, previews a receipt,
// spells names, and writes and reads table listings.
// What is said goes to standard error; standard output has findings and shapes, and one last word: done, stopped or failed.

#![tactic(auto)]

mod descriptors;
mod files;
mod options;
mod usage;
mod words;
mod work;

pub use codepage::TableRoom;
use tillbox_jobs::job::Ending;
pub use tillbox_jobs::tables::Memory;
use tillbox_storage::messages::{Reported, Stream};

// The exit status of a call whose words are wrong.
const WRONG_WORDS: u8 = 64;

// Says how a call ended, as the last word, and gives the exit status of a call whose words were right.
fn end_with(ending: Result<Ending, Reported>) -> u8 {
    let (word, status) = match ending {
        Ok(Ending::Done) => (b"done\n".as_slice(), 0),
        Err(_) => (b"failed\n".as_slice(), 1),
        Ok(Ending::Stopped) => (b"stopped\n".as_slice(), 2),
    };
    Stream::Out.put(word);
    status
}

// Whether help is asked for, by its word or as other programs are asked.
fn asks_help(rt: &HostRuntime) -> bool {
    options::is_word(rt, 1, b"help")
        || options::is_word(rt, 1, b"--help")
        || options::is_word(rt, 1, b"-h")
}

// The program: memory for the image of a table set and for its tables is lent to it. The exit status is 0 where all is done, 1 where
// it failed, 2 where a policy stopped it, and 64 where the words of the call are wrong.
pub fn tillbox_main(rt: &HostRuntime, memory: &mut Memory) -> u8 {
    descriptors::open_closed(rt);
    if asks_help(rt) {
        usage::put();
        return 0;
    }
    if options::is_word(rt, 1, b"--version") {
        usage::put_version();
        return 0;
    }
    match words::read(rt) {
        Ok(call) => end_with(files::with_names(rt, call, memory)),
        Err(misused) => {
            end_with(Err(misused));
            WRONG_WORDS
        }
    }
}
