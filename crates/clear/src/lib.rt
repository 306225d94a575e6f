//! Phase Clear over the parts of a core: the oldest store with a known, untainted address is cleared, and the oldest
//! load that passed it wrongly goes with all that is younger and is fetched anew.
//!
//! The bit of dependence of such a load is set.
//!
//! Rules: `window_model/specs/Clear.antt` and `Dependence.antt`; `specs/Clearable.antt`, `Cleared.antt`;
//! `docs/machine.md`, "Clear".
//!
//! Promises: where the visibility point has moved over the window, the parts hold the machine that Clear leaves, with
//! its events: nothing changes where there are no bits of dependence.
//!
//! Clauses: `clear`.
#![tactic(auto)]

ghost use Rattle.clear.specs.Clearable.{FindsClearable};

mod finding;
mod phase;

pub use phase::clear;

/// The oldest store of the queue whose address is known and whose root isn't behind the visibility point is the one
/// that the machine clears, where the parts refine the window and the point has moved over it (`docs/machine.md`,
/// "Clear").
pub fn queue_finds_clearable()
    ensures { FindsClearable }
{}
