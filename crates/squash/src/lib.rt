//! A squash, of Resolve or of Clear: what is dropped of the parts of a core.
//!
//! Where a branch or JALR was wrongly predicted or has a fault, all that is younger is dropped (`docs/machine.md`,
//! "Resolve"), and where a load passed a store wrongly, the load and all that is younger ("Clear"). Serials rise with
//! age, so these are the entries from one serial on, and each part takes them out by that. Misses go on: no part here
//! knows of them.
//!
//! Rules: `window_model/specs/Resolve.antt`; `specs/Laws.antt`, that what is dropped is what the machine drops.
//!
//! Promises: the entries from a serial on go, of the reorder buffer, the table, the stations, the queues and the
//! divider. All else stays; that is what the machine drops.
//!
//! Clauses: `squash_after`; `squashes_as_resolve`.
#![tactic(auto)]

mod dropping;
mod laws;

pub use dropping::squash_after;
pub use laws::squashes_as_resolve;
