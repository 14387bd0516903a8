// The command of a line: what its first word names.
use crate::words::Words;

// The longest line.
const LINE_LIMIT: usize = 400000;

#[derive(Clone, Copy)]
pub enum Command {
    Table,
    Shape,
    Bytes,
    Units,
    FillBytes,
    FillUnits,
    Standard,
    Start,
    Run,
    Decode,
    Encode,
    DecodeHere,
    EncodeHere,
    Save,
    Load,
    Convert,
    Hold,
    Held,
    Field,
    Breaks,
    Propose,
    Index,
    Entry,
    Append,
    Find,
    Spell,
    InPlace,
    Lend,
    Line,
    Lent,
    Listed,
    Lister,
    List,
    Findings,
    // A line that is passed over.
    Nothing,
    // A line that is no command.
    Unknown,
}

// The command that a word names, among those that call the library on the table set.
fn named_call(word: &[u8]) -> Command {
    match word {
        b"shape" => Command::Shape,
        b"decode" => Command::Decode,
        b"encode" => Command::Encode,
        b"decodehere" => Command::DecodeHere,
        b"encodehere" => Command::EncodeHere,
        b"save" => Command::Save,
        b"convert" => Command::Convert,
        b"breaks" => Command::Breaks,
        b"propose" => Command::Propose,
        b"index" => Command::Index,
        b"entry" => Command::Entry,
        b"append" => Command::Append,
        b"find" => Command::Find,
        b"spell" => Command::Spell,
        b"inplace" => Command::InPlace,
        b"findings" => Command::Findings,
        _ => Command::Unknown,
    }
}

// The command that a word names.
fn named(word: &[u8]) -> Command {
    match word {
        b"table" => Command::Table,
        b"bytes" => Command::Bytes,
        b"units" => Command::Units,
        b"fillbytes" => Command::FillBytes,
        b"fillunits" => Command::FillUnits,
        b"standard" => Command::Standard,
        b"start" => Command::Start,
        b"run" => Command::Run,
        b"load" => Command::Load,
        b"hold" => Command::Hold,
        b"held" => Command::Held,
        b"field" => Command::Field,
        b"lend" => Command::Lend,
        b"line" => Command::Line,
        b"lent" => Command::Lent,
        b"listed" => Command::Listed,
        b"lister" => Command::Lister,
        b"list" => Command::List,
        _ => named_call(word),
    }
}

impl Command {
    // The command of a line, from its first word.
    pub fn read(words: &mut Words<'_>) -> Command {
        let line = words.line;
        if LINE_LIMIT < line.len() {
            return Command::Unknown;
        }
        if line.is_empty() || line[0] == b'#' {
            return Command::Nothing;
        }
        match words.word() {
            Some(word) => named(word),
            None => Command::Unknown,
        }
    }
}
