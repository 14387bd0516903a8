// Inner: numbers about files, places and sizes, and the blocks of an input.

#![tactic(auto)]

ghost use Rattle.std.specs.Prelude.{◌≡◌, ◌-◌, ◌≤◌, min, length};
ghost use Rattle.tillbox_layout.specs.Files.{last_place, Front, file_size, units_in, is_whole, place_of, block_len, is_final, block_count};

// The most units of a block of the journal.
pub const BLOCK: u64 = 512;

// The most units that a job reads at a time: four blocks.
pub const PART: u64 = 2048;

const LAST_PLACE: u64 = 9223372036854775807;

// The smaller of a count and a slice's length, so that it counts elements at the front of the slice.
pub fn front_len<T>(count: usize, items: &[T]) -> usize
    ensures front { Front result items.now }
    ensures value { result ≡ min count (length items.now) }
{
    count.min(items.len())
}

// A size that the system told as a signed number. Kept for callers that have such a one; std tells the jobs' sizes unsigned.
pub fn size_of(size: i64) -> u64
    ensures { result ≡ file_size size }
{
    if size < 0 {
        return 0;
    }
    size as u64
}

// How many units some bytes are.
#[tactic(auto, unfolding(crate::specs::Files::units_in))]
pub fn units_in(wide: bool, bytes: u64) -> u64
    ensures { result ≡ units_in wide bytes }
{
    if wide { bytes / 2 } else { bytes }
}

// Whether some bytes are whole units.
#[tactic(auto, unfolding(crate::specs::Files::is_whole))]
pub fn is_whole(wide: bool, bytes: u64) -> bool
    ensures { result ≡ is_whole wide bytes }
{
    !wide || bytes % 2 == 0
}

// Where a unit stands in a file; the last place where it would be beyond it.
#[tactic(auto, unfolding(crate::specs::Files::place_of))]
pub fn place_of(wide: bool, unit: u64) -> u64
    ensures value { result ≡ place_of wide unit }
    ensures upper_bound { result ≤ last_place }
{
    let place = if wide { unit.saturating_mul(2) } else { unit };
    place.min(LAST_PLACE)
}

// How many units the next block has, where a block has at most `size`.
#[tactic(auto, unfolding(crate::specs::Files::block_len))]
pub fn block_len(size: u64, read: u64, total: u64) -> usize
    ensures value { result ≡ block_len size read total }
    ensures upper_bound { result ≤ size }
{
    total.saturating_sub(read).min(size) as usize
}

// Whether the next block is the last one.
#[tactic(auto, unfolding(crate::specs::Files::is_final))]
pub fn is_final(size: u64, read: u64, total: u64) -> bool
    ensures { result ≡ is_final size read total }
{
    total.saturating_sub(read) <= size
}

// How many blocks of 512 are left.
#[tactic(auto, unfolding(crate::specs::Files::block_count))]
pub fn block_count(read: u64, total: u64, last: bool) -> u64
    ensures { result ≡ block_count read total last }
{
    let count = total.saturating_sub(read).div_ceil(BLOCK);
    if last { count.max(1) } else { count }
}
