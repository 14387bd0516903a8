// A receipt, and how far it is.
use codepage::TableSet;
use convert::Run;
use tillbox_checks::kinds::Kinds;
use tillbox_layout::front_len;
use tillbox_storage::files::OpenFile;
use tillbox_storage::messages::Reported;

// What a receipt is made by: the tables, the width of its printed lines, and its file.
#[derive(Clone, Copy)]
pub struct Receipt<'a> {
    pub tables: &'a TableSet<'a>,
    pub width: u64,
    pub target: &'a OpenFile<'a>,
}

// How far it is: the run; the bytes of the line at hand, whether it has units, whether it is over the buffer and so written as it comes, and its
// number; what was written, the printed lines, the lines that were not broken, and the characters replaced so far, by kind.
#[derive(Clone, Copy)]
pub struct Page {
    pub run: Run,
    pub length: usize,
    pub begun: bool,
    pub over: bool,
    pub number: u64,
    pub written: u64,
    pub printed: u64,
    pub unbroken: u64,
    pub kinds: Kinds,
}

impl Page {
    // Before the first line.
    pub fn new(run: Run) -> Page {
        Page {
            run,
            length: 0,
            begun: false,
            over: false,
            number: 1,
            written: 0,
            printed: 0,
            unbroken: 0,
            kinds: Kinds::default(),
        }
    }

    // The line at hand is closed, as so many printed lines.
    pub fn close(&mut self, printed: u64) {
        self.length = 0;
        self.begun = false;
        self.over = false;
        self.number = self.number.saturating_add(1);
        self.printed = self.printed.saturating_add(printed);
    }

    // Writes some bytes.
    pub fn put(&mut self, bytes: &[u8], target: &OpenFile<'_>) -> Result<(), Reported> {
        target.write(bytes)?;
        self.written = self.written.saturating_add(bytes.len() as u64);
        Ok(())
    }

    // Some bytes more of the line at hand. A line that is longer than the buffer is written as it comes, unbroken.
    pub fn append(
        &mut self,
        bytes: &[u8],
        line: &mut [u8],
        target: &OpenFile<'_>,
    ) -> Result<(), Reported> {
        if self.over {
            return self.put(bytes, target);
        }
        let length = front_len(self.length, line);
        if line.len() - length < bytes.len() {
            self.put(&line[..length], target)?;
            self.over = true;
            return self.put(bytes, target);
        }
        let end = length + bytes.len();
        line[length..end].copy_from_slice(bytes);
        self.length = end;
        Ok(())
    }
}
