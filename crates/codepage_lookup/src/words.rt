// Eight bytes read as one word. No public calls.
ghost use Rattle.std.specs.Prelude.{ℕ, ◌+◌, ◌*◌, ◌≤◌, length};
ghost use Rattle.codepage_lookup.specs.Words.{WordAt};

// Eight bytes as a word: the first is its lowest.
pub fn word_at(piece: &[u8], i: usize) -> u64
    requires { i + 8 ≤ length piece.now }
    ensures { WordAt piece.now i result }
{
    let two = (piece[i] as u64) + 0x100 * (piece[i + 1] as u64);
    let three = two + 0x10000 * (piece[i + 2] as u64);
    let four = three + 0x1000000 * (piece[i + 3] as u64);
    let five = four + 0x100000000 * (piece[i + 4] as u64);
    let six = five + 0x10000000000 * (piece[i + 5] as u64);
    let seven = six + 0x1000000000000 * (piece[i + 6] as u64);
    seven + 0x100000000000000 * (piece[i + 7] as u64)
}
