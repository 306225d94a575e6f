//! Tests of the core over both rename tables, of its phases one by one, and of the lines that a comparison is told by,
//! as a caller sees them.
//!
//! Whole runs are cases (`docs/cases.md`). The tests use public items alone, so they stand above the crates that they
//! test, and cost no more than their own proof.
//!
//! Rules: `docs/working.md`, "Where tests stand".
#![tactic(auto)]

#[cfg(test)]
mod asserting;
#[cfg(test)]
mod comparisons;
#[cfg(test)]
mod counting;
#[cfg(test)]
mod cycles;
#[cfg(test)]
mod descriptions;
#[cfg(test)]
mod flights;
#[cfg(test)]
mod images;
#[cfg(test)]
mod lines;
#[cfg(test)]
mod phases;
#[cfg(test)]
mod programs;
#[cfg(test)]
mod renaming;
#[cfg(test)]
mod settings;
#[cfg(test)]
mod stores;
