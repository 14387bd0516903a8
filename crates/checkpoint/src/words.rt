// The words that close a line, with the line feed.
pub const ON: [u8; 3] = *b"on\n";

pub const OVER: [u8; 5] = *b"over\n";
