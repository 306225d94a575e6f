//! Tests of what stands in each place of a machine description, as a caller sees it.
//!
//! Which descriptions are refused, and which words are commands, are cases (`docs/cases.md`). They use public items
//! alone, so they stand above the crates that they test, and cost no more than their own proof.
//!
//! Rules: `docs/working.md`, "Where tests stand".
#![tactic(auto)]

#[cfg(test)]
mod asserting;
#[cfg(test)]
mod descriptions;
