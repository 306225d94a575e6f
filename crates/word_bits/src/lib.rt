//! Single bits of a word of 64 or 128, for sets that are kept as bits: a bit is set, cleared or asked for, and the next
//! one that is set is found.
//!
//! Rules: `specs/Bits.antt`.
//!
//! Promises: a word of 64 or 128 bits with one bit set or cleared, all others as they were; whether a bit is set; and
//! the first that is set from one on.
//!
//! Clauses: `with_bit`, `has_bit`, `next_bit`, `with_wide_bit`, `has_wide_bit`, `next_wide_bit`.
#![tactic(auto)]

mod bits;
mod wide;

pub use bits::{has_bit, next_bit, with_bit};
pub use wide::{has_wide_bit, next_wide_bit, with_wide_bit};
