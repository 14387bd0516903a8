// The input, read in blocks and cut into lines.
use console_print::Output;
use std::io::Read;
use std::rt::Stdin;

// Standard input, and a block of it with its unread part.
#[derive(Drop)]
pub struct Input<'a> {
    stdin: Stdin,
    block: &'a mut [u8],
    from: usize,
    to: usize,
}

impl<'a> Input<'a> {
    // Before the first block is read.
    pub fn new(stdin: Stdin, block: &'a mut [u8]) -> Input<'a> {
        Input {
            stdin,
            block,
            from: 0,
            to: 0,
        }
    }

    // Whether the block is used up, so that the next line waits for more input.
    pub fn is_waiting(&self) -> bool {
        self.to <= self.from
    }

    // Reads a block of the input, by one call; none at its end and where a read fails.
    fn read_block(&mut self) {
        self.from = 0;
        self.to = match self.stdin.read(self.block) {
            Ok(count) => count,
            Err(_) => 0,
        };
    }

    // Adds the unread bytes up to the next line feed to the line, as far as it has room, and tells whether there was one.
    fn gather(&mut self, line: &mut Output<'_>) -> bool {
        let end = self.to.min(self.block.len());
        let start = self.from.min(end);
        let unread = &self.block[start..end];
        match unread.iter().position(|byte| *byte == b'\n') {
            Some(size) => {
                line.put(&unread[..size]);
                self.from = start + size + 1;
                true
            }
            None => {
                line.put(unread);
                self.from = end;
                false
            }
        }
    }

    // Gathers a line, and tells whether a line feed ended it. A proved loop has to end, and nothing says that a line does: so the loop
    // counts its turns, up to a number that no run reaches.
    fn gather_line(&mut self, line: &mut Output<'_>) -> bool {
        for _ in 0..u64::MAX {
            if self.is_waiting() {
                self.read_block();
            }
            if self.is_waiting() {
                return false;
            }
            if self.gather(line) {
                return true;
            }
        }
        false
    }

    // Gathers the next line, and tells whether there is one.
    pub fn next_line(&mut self, line: &mut Output<'_>) -> bool {
        line.at = 0;
        self.gather_line(line) || line.at != 0
    }
}
