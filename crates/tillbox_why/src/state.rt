// How far a journal is told.
use findings::Finding;
use tillbox_checks::kinds::{Kind, Kinds};

// Where the part at hand begins in the journal; how much of the part is told, and a place of it where a code begins, from which the next
// context is looked for; the findings so far, by kind; and whether the policy stopped the reading.
#[derive(Clone, Copy, Default)]
pub struct Telling {
    pub start: u64,
    pub told: usize,
    pub mark: usize,
    pub kinds: Kinds,
    pub stopped: bool,
}

// The place behind a finding, in its part.
pub fn end_of(found: Finding) -> usize {
    found.place.saturating_add(found.size as usize)
}

impl Telling {
    // What was read of the journal.
    pub fn read(self) -> u64 {
        self.start.saturating_add(self.told as u64)
    }

    // The next part begins where this one was told to.
    pub fn begin_part(&mut self) {
        self.start = self.read();
        self.told = 0;
        self.mark = 0;
    }

    // A finding of the part is told; a digit 0 stops the reading.
    pub fn add(&mut self, found: Finding) {
        self.told = end_of(found);
        self.kinds = self.kinds.with_one(Kind::of_flag(found.kind));
        self.stopped = found.digit == 0;
    }

    // Whether nothing more of a journal of `total` bytes is told.
    pub fn is_over(self, total: u64) -> bool {
        self.stopped || total <= self.start
    }
}
