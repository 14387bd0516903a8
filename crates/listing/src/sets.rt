// Sets of bytes as bits.
ghost use Rattle.std.specs.Prelude.{◌≡◌, ◌+◌, ◌≤◌, ◌<◌};
ghost use Rattle.std.specs.Int.Count.{ones};
ghost use Rattle.listing.specs.Sets.{bit, with_bit, bits_below, in_half, add_to_half, count_half, below_in_half, in_bytes, add_to_bytes};

use crate::{Bytes, Half};

// Whether a bit of a word is set.
fn bit_of(word: u64, place: u8) -> bool
    requires { place < 64 }
    ensures { result ≡ bit word place }
{
    (word >> place) % 2 == 1
}

// A word with a bit set.
#[tactic(auto, using(crate::proofs::SetLaws::shifted), unfolding(crate::specs::Sets::with_bit))]
fn with_bit(word: u64, place: u8) -> u64
    requires { place < 64 }
    ensures { result ≡ with_bit word place }
{
    word | (1u64 << place)
}

// How many bits are set.
fn ones_of(word: u64) -> usize
    ensures { (result ≡ ones word) × (result ≤ 64) }
{
    word.count_ones() as usize
}

// How many bits below a place are set.
#[tactic(auto, using(crate::proofs::SetLaws::masked, crate::proofs::SetLaws::mask_positive), unfolding(crate::specs::Sets::bits_below))]
fn bits_below(word: u64, place: u8) -> usize
    requires { place < 64 }
    ensures { (result ≡ bits_below word place) × (result ≤ 64) }
{
    ones_of(word & ((1u64 << place) - 1))
}

impl Half {
    pub const EMPTY: Half = Half { low: 0, high: 0 };

    // Whether a place is in the set.
    #[tactic(auto, unfolding(crate::specs::Sets::in_half))]
    pub(crate) fn contains(self, place: u8) -> bool
        requires { place < 128 }
        ensures { result ≡ in_half self place }
    {
        if place < 64 {
            bit_of(self.low, place)
        } else {
            bit_of(self.high, place - 64)
        }
    }

    // The set with one place more.
    #[tactic(auto, unfolding(crate::specs::Sets::add_to_half))]
    pub(crate) fn with(self, place: u8) -> Half
        requires { place < 128 }
        ensures { result ≡ add_to_half self place }
    {
        if place < 64 {
            Half {
                low: with_bit(self.low, place),
                ..self
            }
        } else {
            Half {
                high: with_bit(self.high, place - 64),
                ..self
            }
        }
    }

    // How many there are.
    #[tactic(auto, unfolding(crate::specs::Sets::count_half))]
    pub(crate) fn count(self) -> usize
        ensures { (result ≡ count_half self) × (result ≤ 128) }
    {
        ones_of(self.low) + ones_of(self.high)
    }

    // How many there are below a place.
    #[tactic(auto, unfolding(crate::specs::Sets::below_in_half))]
    pub(crate) fn count_below(self, place: u8) -> usize
        requires { place < 128 }
        ensures { (result ≡ below_in_half self place) × (result ≤ 128) }
    {
        if place < 64 {
            bits_below(self.low, place)
        } else {
            ones_of(self.low) + bits_below(self.high, place - 64)
        }
    }
}

impl Bytes {
    pub const EMPTY: Bytes = Bytes {
        low: Half::EMPTY,
        high: Half::EMPTY,
    };

    // Whether a byte is in the set.
    #[tactic(auto, unfolding(crate::specs::Sets::in_bytes))]
    pub(crate) fn contains(self, byte: u8) -> bool
        ensures { result ≡ in_bytes self byte }
    {
        if byte < 0x80 {
            self.low.contains(byte)
        } else {
            self.high.contains(byte - 0x80)
        }
    }

    // The set with one byte more.
    #[tactic(auto, unfolding(crate::specs::Sets::add_to_bytes))]
    pub(crate) fn with(self, byte: u8) -> Bytes
        ensures { result ≡ add_to_bytes self byte }
    {
        if byte < 0x80 {
            Bytes {
                low: self.low.with(byte),
                ..self
            }
        } else {
            Bytes {
                high: self.high.with(byte - 0x80),
                ..self
            }
        }
    }
}
