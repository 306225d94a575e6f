//! Tests of texts and of the streams that take them, as a caller sees them: lines, reports, traces, files, sinks.
//!
//! They use public items alone, so they stand above the crates that they test, and cost no more than their own proof.
//!
//! Rules: `docs/working.md`, "Where tests stand".
#![tactic(auto)]

#[cfg(test)]
mod asserting;
#[cfg(test)]
mod files;
#[cfg(test)]
mod hosts;
#[cfg(test)]
mod lines;
#[cfg(test)]
mod reports;
#[cfg(test)]
mod sinks;
#[cfg(test)]
mod traces;
