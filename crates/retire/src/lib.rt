//! Phase Retire over the parts of a core: the oldest entries take effect, in order.
//!
//! Rules: `specs/Parts.antt`, over `window_model/specs/Retire.antt`: of which machines it speaks; `specs/Gone.antt`,
//! what goes with the entries that retire; `docs/machine.md`, "Retire".
//!
//! Promises: what is left is what phase Retire leaves of every machine with this window, cache, memory, registers and
//! pc, and so is the end; what retired is taken out of the table and the queues.
//!
//! Clauses: `retire`.
#![tactic(auto)]

mod commit;
mod phase;
mod turn;

pub use phase::retire;
