//! The bits of a word of 128, for sets that one of 64 has no room for.
ghost use Rattle.std.specs.Prelude.{◌≡◌, ◌≢◌, ◌+◌, ◌%◌, ◌<◌, ℕ, max};
ghost use Rattle.std.specs.Int.{bit_at};
ghost use Rattle.word_bits.specs.Bits.{one_if, NextBit};

use crate::bits::{has_bit, next_bit, with_bit};

// The word's bits below 64.
fn low(word: u128) -> u64
    ensures { (b : ℕ) → b < 64 → bit_at result b ≡ bit_at word b }
{
    (word % (1 << 64)) as u64
}

// The word's bits from 64 on.
fn high(word: u128) -> u64
    ensures { (b : ℕ) → bit_at result b ≡ bit_at word (64 + b) }
{
    (word >> 64) as u64
}

// The word of two halves.
fn joined(low: u64, high: u64) -> u128
    ensures low { (b : ℕ) → b < 64 → bit_at result b ≡ bit_at low b }
    ensures high { (b : ℕ) → bit_at result (64 + b) ≡ bit_at high b }
{
    high as u128 * (1 << 64) + low as u128
}

/// The word with a bit set or cleared.
pub fn with_wide_bit(word: u128, bit: u32, mark: bool) -> u128
    requires { bit < 128 }
    ensures here { bit_at result bit ≡ one_if mark }
    ensures others { (b : ℕ) → b < 128 → b ≢ bit → bit_at result b ≡ bit_at word b }
{
    if bit < 64 {
        joined(with_bit(low(word), bit, mark), high(word))
    } else {
        joined(low(word), with_bit(high(word), bit - 64, mark))
    }
}

// The half in which a bit lies.
fn half_with(word: u128, bit: u32) -> u64
    requires { bit < 128 }
    ensures { bit_at result (bit % 64) ≡ bit_at word bit }
{
    if bit < 64 { low(word) } else { high(word) }
}

/// Whether a bit is set.
pub fn has_wide_bit(word: u128, bit: u32) -> bool
    requires { bit < 128 }
    ensures { bit_at word bit ≡ one_if result }
{
    has_bit(half_with(word, bit), bit % 64)
}

// The first bit below 64 that is set from this one on.
fn next_low(word: u128, from: u32) -> Option<u32>
    ensures { NextBit (bit_at word) from 64 result }
{
    if from >= 64 {
        return None;
    }
    next_bit(low(word), from)
}

// The first bit from 64 on that is set from this one on.
fn next_high(word: u128, from: u32) -> Option<u32>
    requires { from < 128 }
    ensures { NextBit (bit_at word) (max from 64) 128 result }
{
    match next_bit(high(word), from.saturating_sub(64)) {
        Some(bit) => Some(64 + bit),
        None => None,
    }
}

/// The first bit that is set from this one on, None where none is.
pub fn next_wide_bit(word: u128, from: u32) -> Option<u32>
    requires { from < 128 }
    ensures { NextBit (bit_at word) from 128 result }
{
    match next_low(word, from) {
        Some(bit) => Some(bit),
        None => next_high(word, from),
    }
}
