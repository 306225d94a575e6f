//! The reorder buffer: the window as a ring, with who executes, who isn't settled and who may yet squash what comes
//! after it.
//!
//! It stands for the window of `docs/machine.md`, "State": the entries in flight, oldest first. Each call is that call
//! on a list. Who executes, isn't settled or may squash is kept beside the entries as bits by position, and the ring
//! answers who is next among them. What is kept of an entry's sources stands in a ring of its own, at the same
//! positions. Where an entry with a serial stands is `position_of` of `window_model`.
//!
//! Rules: `specs/Ring.antt`, what the ring is seen as; `Issued.antt`, `Flags.antt`, `Beside.antt`.
//!
//! Promises: a list of at most `core.rob` entries: each call is the list's, and all other entries stay.
//!
//! Clauses: `RobRing::new`, `push`, `head`, `at`, `lend`, `set`, `issue`, `resolve`, `clear`, `finish`, `cut`,
//! `pop_head`, `position_of`, `find`, `len`; who is next among those that execute, among branches and JALRs that aren't
//! resolved and stores that aren't cleared, and among those that may yet squash what comes after them: `next_busy`,
//! `next_open`, `next_unsafe`; `sources_at`.
#![tactic(auto)]

mod beside;
mod flags;
mod issued;
mod ring;

pub use beside::{Sources, sources_at};
pub use issued::Issued;
pub use ring::{Found, RobRing};
