//! Tests of the instruction set and of images, as a caller sees them: operations, instruction words, effects, memory,
//! files, bits of words.
//!
//! They use public items alone, so they stand above the crates that they test, and cost no more than their own proof.
//!
//! Rules: `docs/working.md`, "Where tests stand".
#![tactic(auto)]

#[cfg(test)]
mod asserting;
#[cfg(test)]
mod bits;
#[cfg(test)]
mod effects;
#[cfg(test)]
mod images;
#[cfg(test)]
mod memory;
#[cfg(test)]
mod values;
#[cfg(test)]
mod words;
