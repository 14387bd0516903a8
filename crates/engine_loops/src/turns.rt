// A turn of a loop: where it comes to in the piece, and how far the call is there.
ghost use Rattle.std.specs.Prelude.{◌≡◌, ℕ, ◌+◌, ◌-◌, ◌≤◌, ◌<◌, ◌^◌};
ghost use Rattle.engine_loops.specs.Turns.{first_turn, moved_turn, past_turn, wait_turn, stays_pending};

use engine::progress;
use engine::progress::Progress;

// How far the call is, the place in the piece, and the unit that was read and waits for the next one, if one does: a lead byte or a
// high surrogate.
#[derive(Clone, Copy)]
pub struct Turn {
    pub progress: Progress,
    pub at: usize,
    pub waits: bool,
    pub first: u16,
}

// The turn that a call begins with: nothing is read, and the unit that is pending waits.
pub fn start(pending: Option<u16>) -> Turn
    ensures { result ≡ first_turn pending }
{
    let progress = Progress {
        answer: 0,
        used: 0,
        written: 0,
        flags: 0,
    };
    match pending {
        Some(first) => Turn {
            progress,
            at: 0,
            waits: true,
            first,
        },
        None => Turn {
            progress,
            at: 0,
            waits: false,
            first: 0,
        },
    }
}

// Codes that have characters were taken, up to `at` in the piece and `written` in the output.
pub fn moved(t: Turn, at: usize, written: usize) -> Turn
    requires { (t.at ≤ at) × (t.progress.used + (at - t.at) < 2 ^ 64) }
    ensures { result ≡ moved_turn t at written }
{
    let s = t.progress;
    let progress = progress::moved(s, at - t.at, written);
    Turn {
        progress,
        at,
        waits: false,
        first: t.first,
    }
}

// A code was taken, or ended the call, that ends `count` units on in the piece.
pub fn past(t: Turn, count: usize, progress: Progress) -> Turn
    requires { t.at + count < 2 ^ 64 }
    ensures { result ≡ past_turn t count progress }
{
    Turn {
        progress,
        at: t.at + count,
        waits: false,
        first: t.first,
    }
}

// One more unit of the piece was read, and waits.
pub fn wait(t: Turn, first: u16) -> Turn
    requires { t.at + 1 < 2 ^ 64 }
    ensures { result ≡ wait_turn t first }
{
    let progress = t.progress;
    Turn {
        progress,
        at: t.at + 1,
        waits: true,
        first,
    }
}

// The piece ends, not the text: the unit that waits stays pending.
pub fn stays_pending(t: Turn) -> Progress
    ensures { result ≡ stays_pending t.progress }
{
    let s = t.progress;
    Progress {
        answer: 1,
        used: s.used,
        written: s.written,
        flags: s.flags,
    }
}
