//! Tests of the parts of a core, as a caller sees them.
//!
//! They use public items alone, so they stand above the crates that they test, and cost no more than their own proof.
//! Expected values follow from `docs/machine.md`; each part is made by the small description of `descriptions.rt` and
//! by the largest.
//!
//! Rules: `docs/working.md`, "Where tests stand".
#![tactic(auto)]

#[cfg(test)]
mod asserting;
#[cfg(test)]
mod caches;
#[cfg(test)]
mod dependence;
#[cfg(test)]
mod descriptions;
#[cfg(test)]
mod entries;
#[cfg(test)]
mod fetching;
#[cfg(test)]
mod gates;
#[cfg(test)]
mod histories;
#[cfg(test)]
mod misses;
#[cfg(test)]
mod names;
#[cfg(test)]
mod points;
#[cfg(test)]
mod ports;
#[cfg(test)]
mod prediction;
#[cfg(test)]
mod queues;
#[cfg(test)]
mod resolving;
#[cfg(test)]
mod rings;
#[cfg(test)]
mod rows;
#[cfg(test)]
mod squashes;
#[cfg(test)]
mod waiting;
