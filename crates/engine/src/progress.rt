// How far a call came, and taking one code.
ghost use Rattle.std.specs.Prelude.{◌≡◌, ℕ, ◌+◌, ◌≤◌, ◌<◌, ◌^◌, length};
ghost use Rattle.engine.specs.Steps.{unit_effect, byte_effect, stopped_by, full_at, taken_by, Took, moved_to};

use crate::policies::CodeEffect;

// The answer so far (0: going on), the units of the codes taken, what was written, and the flags set.
#[derive(Clone, Copy)]
pub struct Progress {
    pub answer: u8,
    pub used: usize,
    pub written: usize,
    pub flags: u8,
}

// Codes of `size` units were taken, up to `written` in the output; they set no flags.
pub fn moved(s: Progress, size: usize, written: usize) -> Progress
    requires { s.used + size < 2 ^ 64 }
    ensures { result ≡ moved_to s size written }
{
    Progress {
        answer: 0,
        used: s.used + size,
        written,
        flags: s.flags,
    }
}

// The code stops the call.
pub fn stopped(d: CodeEffect, size: usize, s: Progress) -> Progress
    requires { s.used + size < 2 ^ 64 }
    ensures { result ≡ stopped_by d.flag size s }
{
    Progress {
        answer: 3,
        used: s.used + size,
        written: s.written,
        flags: s.flags | (d.flag | 8),
    }
}

// The code does not fit.
fn full(s: Progress) -> Progress
    ensures { result ≡ full_at s }
{
    Progress {
        answer: 2,
        used: s.used,
        written: s.written,
        flags: s.flags,
    }
}

// The code was taken and wrote `count` elements.
pub fn taken(d: CodeEffect, size: usize, s: Progress, count: usize) -> Progress
    requires { (s.used + size < 2 ^ 64) × (s.written + count < 2 ^ 64) }
    ensures { result ≡ taken_by d.flag size s count }
{
    Progress {
        answer: 0,
        used: s.used + size,
        written: s.written + count,
        flags: s.flags | d.flag,
    }
}

// Takes a code of `size` bytes in decoding: stops, writes its unit if it fits, or skips it.
pub fn take_units(d: CodeEffect, size: usize, s: Progress, out: &mut [u16]) -> Progress
    requires { (s.written ≤ length out.old) × (s.used + size < 2 ^ 64) }
    ensures { Took (unit_effect d) size s out.old result out.new }
{
    let at = s.written;
    if d.stops {
        return stopped(d, size, s);
    }
    if d.count == 0 {
        return taken(d, size, s, 0);
    }
    if out.len() <= at {
        return full(s);
    }
    out[at] = d.value;
    taken(d, size, s, 1)
}

// Takes a code of `size` units in encoding: stops, writes its bytes if all fit, or skips it.
pub fn take_bytes(d: CodeEffect, size: usize, s: Progress, out: &mut [u8]) -> Progress
    requires { (s.written ≤ length out.old) × (s.used + size < 2 ^ 64) }
    ensures { Took (byte_effect d) size s out.old result out.new }
{
    let at = s.written;
    if d.stops {
        return stopped(d, size, s);
    }
    if d.count == 0 {
        return taken(d, size, s, 0);
    }
    if d.count == 1 {
        if at < out.len() {
            out[at] = (d.value % 256) as u8;
            return taken(d, size, s, 1);
        }
        return full(s);
    }
    if out.len() - at < 2 {
        return full(s);
    }
    out[at] = (d.value / 256) as u8;
    out[at + 1] = (d.value % 256) as u8;
    taken(d, size, s, 2)
}
