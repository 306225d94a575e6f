//! The written machine by its parts: a cycle is its phases, in their order, on one value of the parts, each of which
//! answers what else the window would have to be searched for.
//!
//! Cycles in which nothing happens are passed over. The parts and what ties them to the machine stand in `core_parts`,
//! each phase in a crate of its own. The moves of the visibility point and the phase Retire are lent to `marked_core`.
//!
//! Rules: `specs/Phases.antt`; `Kept.antt`, what holds between two cycles, also of the cycles to come;
//! `docs/architecture.md`, "The core in one picture".
//!
//! Promises: one call is one cycle of the written machine, and the parts refine its window before and after; what the
//! lent parts tell of it.
//!
//! Clauses: `Core::new`, `Clocked::cycle`; `rob`, `rename`, `stations`, `lsq`, `point`, `yrot`.
#![tactic(auto)]

mod by_parts;
mod clocking;
mod cycle;
mod due;
mod lent;
mod moves;
mod phases;

pub use by_parts::Core;
pub use moves::{advance_after, advance_after_complete};
pub use phases::retire;
