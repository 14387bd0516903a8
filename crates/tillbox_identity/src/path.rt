// A path as the system takes it: text of fewer than 4,096 bytes, so that a 0 can stand behind it.
ghost use Rattle.std.specs.Prelude.{◌≡◌, ◌<◌, ◌↔◌, IfOk, IsTrue, length};

use std::io::{Error, ErrorKind};
use std::{io, str};

// The bytes of the longest path, with its 0.
const PATH_MAX: usize = 4096;

// The system's number of a name that is too long.
const ENAMETOOLONG: i32 = 36;

// Whether a path is short enough for a 0 to stand behind it.
fn is_short(path: &[u8]) -> bool
    ensures { IsTrue result ↔ (length path.now < 4096) }
{
    path.len() < PATH_MAX
}

// A path as text. One that is too long is refused as the system would, and one that is no text with words of our own.
pub fn text_of(path: &[u8]) -> io::Result<&str>
    ensures { IfOk result (λ text. (text.now ≡ path.now) × (length text.now < 4096)) }
{
    if !is_short(path) {
        return Err(Error::from_raw_os_error(ENAMETOOLONG));
    }
    str::from_utf8(path).map_err(|_| Error::new(
        ErrorKind::InvalidInput,
        "the name is no text in UTF-8",
    ))
}
