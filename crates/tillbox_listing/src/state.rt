// How far a listing is read.
use listing::Progress;
use tillbox_layout::front_len;

// The most bytes of a line that are kept: the longest record has 12.
const KEPT: usize = 80;

// What has been read of it; the bytes of the line at hand that are kept, and whether it has more; the lines and bytes so far.
#[derive(Clone, Copy)]
pub struct ReadState {
    pub progress: Progress,
    line: [u8; KEPT],
    length: usize,
    pub cut: bool,
    pub lines: u64,
    pub read: u64,
}

impl ReadState {
    // Before the first line.
    pub fn first() -> ReadState {
        ReadState {
            progress: Progress::new(),
            line: [0; KEPT],
            length: 0,
            cut: false,
            lines: 0,
            read: 0,
        }
    }

    // So many bytes more are read.
    pub fn add_read(&mut self, count: usize) {
        self.read = self.read.saturating_add(count as u64);
    }

    // The line at hand, as far as it is kept.
    pub fn line(&self) -> &[u8] {
        &self.line[..front_len(self.length, &self.line)]
    }

    // Some bytes more of the line at hand, as many as there is room for.
    pub fn append(&mut self, part: &[u8]) {
        let length = front_len(self.length, &self.line);
        let count = front_len(self.line.len() - length, part);
        let end = length + count;
        self.line[length..end].copy_from_slice(&part[..count]);
        self.length = end;
        if count < part.len() {
            self.cut = true;
        }
    }

    // The line at hand is accepted.
    pub fn accept(&mut self, progress: Progress) {
        self.progress = progress;
        self.length = 0;
        self.cut = false;
        self.lines = self.lines.saturating_add(1);
    }
}
