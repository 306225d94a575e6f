//! The front of the machine: where fetching goes on, the queue of what is fetched and not yet renamed, and phase Fetch.
//!
//! Rules: `window_model/specs/Fetch.antt`; `specs/Unit.antt`, of which machines it speaks; `docs/machine.md`, "Fetch".
//!
//! Promises: what `fetch` leaves is what phase Fetch leaves, under each description of these sizes, and there is one,
//! of every machine with this queue, this fetch pc, this predictor, and this history and stack; the queue gives its
//! oldest item, and a redirection empties it.
//!
//! Clauses: `Fetch::new`, `fetch`, `oldest`, `front`, `take`, `drop_oldest`, `redirect`.
#![tactic(auto)]

mod item;
mod unit;

pub use unit::Fetch;
