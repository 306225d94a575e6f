//! The bits of a word of 64.
ghost use Rattle.std.specs.Prelude.{◌≡◌, ◌≢◌, ◌<◌, ℕ};
ghost use Rattle.std.specs.Int.{bit_at};
ghost use Rattle.word_bits.specs.Bits.{one_if, NextBit};

/// The word with a bit set or cleared.
pub fn with_bit(word: u64, bit: u32, mark: bool) -> u64
    requires { bit < 64 }
    ensures here { bit_at result bit ≡ one_if mark }
    ensures others { (b : ℕ) → b < 64 → b ≢ bit → bit_at result b ≡ bit_at word b }
{
    if mark {
        word | (1 << bit)
    } else {
        word & !(1 << bit)
    }
}

/// Whether a bit is set.
pub fn has_bit(word: u64, bit: u32) -> bool
    requires { bit < 64 }
    ensures { bit_at word bit ≡ one_if result }
{
    (word >> bit) % 2 == 1
}

/// The first bit that is set from this one on, None where none is.
pub fn next_bit(word: u64, from: u32) -> Option<u32>
    requires { from < 64 }
    ensures { NextBit (bit_at word) from 64 result }
{
    let rest = word >> from;
    if rest == 0 {
        return None;
    }
    Some(from + rest.trailing_zeros())
}
