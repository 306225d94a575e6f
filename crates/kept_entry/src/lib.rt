//! The entry that the defence alone keeps from issuing, as a core tells it between two cycles: all that it reads is
//! there, and yet it waits.
//!
//! The oldest entry alone is asked that waits, isn't visible and has all that it reads. The stations are looked at,
//! oldest first: those that are able alone, or, where the defence holds results back, all of them from the first that
//! isn't visible on. The reorder buffer is looked at only for what is left.
//!
//! Rules: `slot_reasons/specs/Kept.antt`; `specs/State.antt`, what is looked at; `docs/formats.md`, "The slots of a
//! run".
//!
//! Promises: the serial of the oldest entry of the window that waits and isn't visible although the writers of all its
//! sources are Done, if the defence doesn't let it issue; none where it does, or where there is no such entry.
//!
//! Clauses: `oldest_kept`.
#![tactic(auto)]

mod kept;
mod operands;
mod seen;
mod walk;

pub use kept::oldest_kept;
