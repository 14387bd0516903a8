// Scans of whole tables: loops without a break, so that they run over many entries at a time. The report has its own, but for
// counting lead bytes.
ghost use Rattle.std.specs.Prelude.{◌≡◌, ℕ, ◌+◌, ◌≤◌, ◌<◌, ltb, length};
ghost use Rattle.codepage.specs.CodePage.{bad_class, leads_below};
ghost use Rattle.codepage.specs.Marks.{Marked, Largest};

use crate::marks::{larger, lead_mark};

// 0 for a class that a byte below 80 can have, else another number.
fn low_mark(class: u8) -> u8
    ensures { (byte : ℕ) → byte < 0x80 → bad_class byte class ≡ ltb 0 result }
{
    class & 0xFA
}

// 0 for a class that a byte from 80 on can have, else another number.
fn high_mark(class: u8) -> u8
    ensures { (byte : ℕ) → 0x80 ≤ byte → bad_class byte class ≡ ltb 0 result }
{
    ((class & 0xFB) + 1) & 0xFC
}

// What a scan of the classes finds: a mark, 0 where no byte has a bad class, and how many lead bytes there are from 80 on.
#[derive(Clone, Copy)]
pub struct ClassScan {
    pub mark: u8,
    pub leads: u8,
}

// Scans all classes in one loop, the bytes below 80 beside those from 80 on.
pub fn scan_classes(classes: &[u8]) -> ClassScan
    requires { length classes.now ≡ 256 }
    ensures marked { Marked bad_class classes.now 0 256 result.mark }
    ensures classes_value { leads_below classes.now 256 ≡ leads_below classes.now 0x80 + result.leads }
{
    let mut mark: u8 = 0;
    let mut leads: u8 = 0;
    for i in 0..128 {
        mark = mark | low_mark(classes[i]) | high_mark(classes[128 + i]);
        leads += lead_mark(classes[128 + i]);
    }
    ClassScan { mark, leads }
}

// The largest index number.
pub fn largest(index: &[u8]) -> u8
    requires { length index.now ≡ 256 }
    ensures { Largest index.now 256 result }
{
    let mut most: u8 = 0;
    for number in index {
        most = larger(most, *number);
    }
    most
}

// The number of lead bytes below a byte. The loop has no branch, so that it runs over many entries at a time.
pub fn leads_below(classes: &[u8], byte: usize) -> usize
    requires { (byte ≤ 256) × (byte ≤ length classes.now) }
    ensures { result ≡ leads_below classes.now byte }
{
    let mut count: u16 = 0;
    for i in 0..byte {
        count += lead_mark(classes[i]) as u16;
    }
    count as usize
}
