// The parts of a journal, and the places of a part where codes begin.
ghost use Rattle.std.specs.Prelude.{◌≤◌, length};

// The most bytes of a part: a text's limit.
const PART: u64 = 65536;

// How many bytes are read for the part that begins at a place of a journal.
pub fn part_len(start: u64, total: u64) -> usize {
    total.saturating_sub(start).min(PART) as usize
}

// Whether a part of so many bytes goes to the journal's end.
pub fn is_complete(start: u64, size: usize, total: u64) -> bool {
    total <= start.saturating_add(size as u64)
}

// The first place from `least` on where a code begins, or the text's end: `from` is one where a code begins.
pub fn code_from(classes: &[u8], text: &[u8], from: usize, least: usize) -> usize
    ensures { result ≤ length text.now }
{
    let mut at = tillbox_layout::front_len(from, text);
    if classes.len() != 256 {
        return at;
    }
    // Kept: a turn moves by the code that it read, so there is no range to go over.
    while at < text.len() {
        if least <= at {
            return at;
        }
        at += codepage_walk::code_size(classes, text, at);
    }
    at
}

// The place behind the last line feed of some bytes, or 0.
pub fn behind_feed(text: &[u8]) -> usize
    ensures { result ≤ length text.now }
{
    match text.iter().rposition(|byte| *byte == b'\n') {
        Some(feed) => feed + 1,
        None => 0,
    }
}

// Where a part ends of which some bytes were read: at the journal's end, else behind its last line or, where it has none, before its last
// byte, as far as codes begin there.
pub fn part_end(classes: &[u8], text: &[u8], complete: bool) -> usize
    ensures { result ≤ length text.now }
{
    if complete {
        return text.len();
    }
    match behind_feed(text) {
        0 => code_from(classes, text, 0, text.len().saturating_sub(1)),
        feed => code_from(classes, text, 0, feed),
    }
}
