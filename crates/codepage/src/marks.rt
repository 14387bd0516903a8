// What a class or a number counts for in the loops over tables that have no break.
ghost use Rattle.std.specs.Prelude.{◌≡◌, ◌≤◌, ltb};
ghost use Rattle.codepage.specs.CodePage.{pick, is_lead};
ghost use Rattle.codepage.specs.Marks.{mark_of};

// 1 for the class of a lead byte, else 0.
pub fn lead_mark(class: u8) -> u8
    ensures { result ≡ mark_of (is_lead class) }
{
    if class & 0xFB == 2 {
        return 1;
    }
    0
}

// The larger of two numbers.
pub fn larger(a: u8, b: u8) -> u8
    ensures lower_bound { (a ≤ result) × (b ≤ result) }
    ensures value { result ≡ pick (ltb a b) b a }
{
    if a < b {
        return b;
    }
    a
}
