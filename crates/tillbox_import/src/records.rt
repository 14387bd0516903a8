// The records file: fields put into an output block as CSV, and the block written when it is nearly full. The file is UTF-16LE
// with its mark first.
use tillbox_layout::front_len;
use tillbox_storage::files::OpenFile;
use tillbox_storage::messages;
use tillbox_storage::messages::Reported;

// The most units that one field takes: 256 quotes, each doubled, two quotes around them, a comma and a line break.
const FIELD_ROOM: usize = 517;

// How far the file is.
#[derive(Clone, Copy)]
pub struct Progress {
    // How many fields the record has that is begun; 0 where none is.
    pub inside: u64,
    // The whole records, and their fields.
    pub records: u64,
    pub fields: u64,
    // Units in the file, and units up to the end of the last whole record.
    pub written: u64,
    pub whole: u64,
}

// The file, and the output block: some units at its front wait.
#[derive(Drop)]
pub struct Records<'a> {
    target: &'a OpenFile<'a>,
    block: [u16; 1024],
    waiting: usize,
    pub progress: Progress,
}

impl Records<'_> {
    // The file with its mark, before the first record.
    pub fn begin<'a>(target: &'a OpenFile<'a>) -> Records<'a> {
        let mut block = [0u16; 1024];
        block[0] = 0xFEFF;
        Records {
            target,
            block,
            waiting: 1,
            progress: Progress {
                inside: 0,
                records: 0,
                fields: 0,
                written: 0,
                whole: 1,
            },
        }
    }

    // Writes what waits in the output block.
    fn flush(&mut self) -> Result<(), Reported> {
        let count = front_len(self.waiting, &self.block);
        let mut bytes = [0u8; 2048];
        let length = utf16::to_bytes(&self.block[..count], &mut bytes);
        self.target.write(&bytes[..length])?;
        self.progress.written = self.progress.written.saturating_add(count as u64);
        self.waiting = 0;
        Ok(())
    }

    // Makes room in the output block for one field more.
    fn make_room(&mut self) -> Result<(), Reported> {
        let count = front_len(self.waiting, &self.block);
        if self.block.len() - count < FIELD_ROOM {
            return self.flush();
        }
        Ok(())
    }

    // Takes up a part that was put behind what waits; the record at hand is begun or closed by it.
    fn settle(&mut self, part: Option<usize>, closed: bool) -> Result<(), Reported> {
        let Some(size) = part else {
            return Err(messages::wrong(
                self.target.path,
                b"a field is larger than the output block",
            ));
        };
        self.waiting = self.waiting.saturating_add(size);
        if closed {
            self.progress.close(self.waiting as u64);
        }
        Ok(())
    }

    // Puts the next field, which closes its record or leaves it open.
    pub fn put(&mut self, field: &[u16], closed: bool) -> Result<(), Reported> {
        self.make_room()?;
        let at = front_len(self.waiting, &self.block);
        let begun = self.progress.is_begun();
        let part = rfc4180::put_field(begun, field, closed, &mut self.block[at..]);
        self.progress.inside = self.progress.inside.saturating_add(1);
        self.settle(part, closed)
    }

    // Ends the file of a text that was read to its end: a record that is begun is closed.
    pub fn finish(&mut self) -> Result<(), Reported> {
        self.make_room()?;
        if self.progress.is_begun() {
            let at = front_len(self.waiting, &self.block);
            let part = rfc4180::put_close(true, &mut self.block[at..]);
            self.settle(part, true)?;
        }
        self.flush()
    }

    // Ends the file of a text that was not: its whole records stay, and nothing of the record that is begun.
    pub fn cut(&mut self) -> Result<(), Reported> {
        self.flush()?;
        let end = tillbox_layout::place_of(true, self.progress.whole);
        self.target.set_length(end)
    }
}

impl Progress {
    // Whether a record is begun.
    fn is_begun(self) -> bool {
        self.inside != 0
    }

    // The record at hand is closed; so many units wait then.
    fn close(&mut self, waiting: u64) {
        self.records = self.records.saturating_add(1);
        self.fields = self.fields.saturating_add(self.inside);
        self.inside = 0;
        self.whole = self.written.saturating_add(waiting);
    }
}
