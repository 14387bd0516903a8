// The system's reason for an error, in its words.
use crate::messages::Stream;
use arrayvec::ArrayString;
use std::fmt::Write;
use std::io::Error;

// Writes the reason for an error, without the number that std has behind the words of the system, as in
// `Is a directory (os error 21)`.
pub fn put(error: Error, stream: Stream) {
    let numbered = error.raw_os_error().is_some();
    let mut text = ArrayString::<128>::new();
    let _ = write!(text, "{error}");
    match text.as_str().rsplit_once(" (") {
        Some((words, _)) if numbered => stream.put(words.as_bytes()),
        _ => stream.put(text.as_str().as_bytes()),
    }
}
