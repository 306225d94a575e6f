//! Flags beside the entries, as the bits of three words: bit k % 64 of word k / 64 is set where the entry at position k
//! has a flag.
ghost use Rattle.std.specs.Prelude.{◌≡◌, ◌≢◌, ◌+◌, ◌<◌, ℕ, if◌then◌else◌, max, nat_lt};
ghost use Rattle.std.specs.Int.{bit_at};
ghost use Rattle.word_bits.specs.Bits.{one_if, NextBit};
ghost use Rattle.rob_ring.specs.Flags.{flag_at};

use machine_desc::ENTRIES_MAX;
use word_bits::{next_bit, with_bit};

/// How many words have a bit for each entry.
pub(crate) const WORDS: usize = ENTRIES_MAX as usize / 64;

/// Puts a flag or none at a position.
pub(crate) fn put_flag(flags: &mut [u64; WORDS], i: u32, flag: bool)
    requires { i < 192 }
    ensures here { flag_at flags.new i ≡ one_if flag }
    ensures others { (k : ℕ) → k ≢ i → flag_at flags.new k ≡ flag_at flags.old k }
{
    let word = flags[(i / 64) as usize];
    flags[(i / 64) as usize] = with_bit(word, i % 64, flag);
}

/// Puts a flag at a position that has none, or leaves it without.
pub(crate) fn add_flag(flags: &mut [u64; WORDS], i: u32, flag: bool)
    requires within { i < 192 }
    requires none { flag_at flags.old i ≡ 0 }
    ensures here { flag_at flags.new i ≡ one_if flag }
    ensures others { (k : ℕ) → k ≢ i → flag_at flags.new k ≡ flag_at flags.old k }
{
    if flag {
        put_flag(flags, i, true);
    }
}

/// The bits of the oldest `len` entries, and none of any other.
pub(crate) fn keep_flags(flags: [u64; WORDS], len: u32) -> [u64; WORDS]
    ensures { (k : ℕ) → flag_at result k ≡ (if nat_lt k len then flag_at flags k else 0) }
{
    [
        low_bits(flags[0], len),
        low_bits(flags[1], len.saturating_sub(64)),
        low_bits(flags[2], len.saturating_sub(128)),
    ]
}

// The lowest bits of a word.
fn low_bits(word: u64, bits: u32) -> u64
    ensures { (b : ℕ) → b < 64 → bit_at result b ≡ (if nat_lt b bits then bit_at word b else 0) }
{
    if bits < 64 {
        word & ((1 << bits) - 1)
    } else {
        word
    }
}

/// The bits once the oldest entry is gone: each is one place lower. Where the words behind the first have none, that
/// one alone is written.
pub(crate) fn drop_flag(flags: &mut [u64; WORDS])
    ensures { (k : ℕ) → flag_at flags.new k ≡ flag_at flags.old (k + 1) }
{
    if flags[1] == 0 && flags[2] == 0 {
        flags[0] = shifted(flags[0], 0);
        return;
    }
    flags[0] = shifted(flags[0], flags[1]);
    flags[1] = shifted(flags[1], flags[2]);
    flags[2] = shifted(flags[2], 0);
}

// The word one bit down, with the lowest bit of the next on top.
fn shifted(word: u64, next: u64) -> u64
    ensures { (b : ℕ) → b < 64 → bit_at result b ≡ (if nat_lt b 63 then bit_at word (b + 1) else bit_at next 0) }
{
    with_bit(word >> 1, 63, next % 2 == 1)
}

/// The first position with a flag from one on.
pub(crate) fn next_flag(flags: [u64; WORDS], from: u32) -> Option<u32>
    ensures { NextBit (flag_at flags) from 192 result }
{
    match next_in(flags[0], from) {
        Some(bit) => Some(bit),
        None => next_from_second(flags, from),
    }
}

// The first position with a flag from one on, where the first word has none from there on.
fn next_from_second(flags: [u64; WORDS], from: u32) -> Option<u32>
    ensures { NextBit (flag_at flags) (max from 64) 192 result }
{
    match next_in(flags[1], from.saturating_sub(64)) {
        Some(bit) => Some(64 + bit),
        None => next_in_third(flags, from),
    }
}

// The first position with a flag from one on, where the first two words have none from there on.
fn next_in_third(flags: [u64; WORDS], from: u32) -> Option<u32>
    ensures { NextBit (flag_at flags) (max from 128) 192 result }
{
    match next_in(flags[2], from.saturating_sub(128)) {
        Some(bit) => Some(128 + bit),
        None => None,
    }
}

// The first bit of a word that is set from one on.
fn next_in(word: u64, from: u32) -> Option<u32>
    ensures { NextBit (bit_at word) from 64 result }
{
    if from >= 64 {
        return None;
    }
    next_bit(word, from)
}
