// How far a list is.
use tillbox_layout::front_len;
use tillbox_storage::files::OpenFile;
use tillbox_storage::messages::Reported;

// The bytes of the line at hand, and whether it is over the buffer and so written as it comes; what was read and written; the lines so
// far, those of them that were changed and those that were refused.
#[derive(Clone, Copy, Default)]
pub struct ListState {
    pub length: usize,
    pub over: bool,
    pub read: u64,
    pub written: u64,
    pub lines: u64,
    pub changed: u64,
    pub refused: u64,
}

impl ListState {
    // So many bytes more are read.
    pub fn add_read(&mut self, count: usize) {
        self.read = self.read.saturating_add(count as u64);
    }

    // The number of the line at hand, counted from 1.
    pub fn number(self) -> u64 {
        self.lines.saturating_add(1)
    }

    // Whether the line at hand has bytes.
    pub fn is_begun(self) -> bool {
        self.over || 0 < self.length
    }

    // The line at hand is closed.
    pub fn close(&mut self) {
        self.length = 0;
        self.over = false;
        self.lines = self.lines.saturating_add(1);
    }

    // A line more that was changed.
    pub fn add_changed(&mut self) {
        self.changed = self.changed.saturating_add(1);
    }

    // A line more that was refused.
    pub fn add_refused(&mut self) {
        self.refused = self.refused.saturating_add(1);
    }

    // Writes some bytes.
    pub fn put(&mut self, bytes: &[u8], target: &OpenFile) -> Result<(), Reported> {
        target.write(bytes)?;
        self.written = self.written.saturating_add(bytes.len() as u64);
        Ok(())
    }

    // Some bytes more of the line at hand. A line that is longer than the buffer is written as it comes.
    pub fn append(
        &mut self,
        bytes: &[u8],
        line: &mut [u8],
        target: &OpenFile,
    ) -> Result<(), Reported> {
        if self.over {
            return self.put(bytes, target);
        }
        let length = front_len(self.length, line);
        if line.len() - length < bytes.len() {
            self.over = true;
            self.put(&line[..length], target)?;
            return self.put(bytes, target);
        }
        let end = length + bytes.len();
        line[length..end].copy_from_slice(bytes);
        self.length = end;
        Ok(())
    }
}
