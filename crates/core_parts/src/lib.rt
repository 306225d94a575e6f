//! The parts of a core as one value that each phase works on: which machine they hold, that they refine its window, and
//! what the lent parts tell.
//!
//! A phase changes the fields that it moves, and shows the invariant of [`Parts`] once, where it ends.
//!
//! Rules: `specs/Held.antt`, which machine the parts hold and what holds of them: the model and the invariant of
//! `Parts`; `Dropped.antt`, what is left without the youngest entries; `Lent.antt`, what the lent parts tell;
//! `Puts.antt` and `Decided.antt`, what Issue decides before it writes; `docs/architecture.md`, "The core in one
//! picture".
//!
//! Promises: the parts of a core are one value, seen as its description, code, machine and visibility point; they
//! refine the window, and each is made for the description; what the lent parts tell of the machine. What Issue has
//! decided: at most nine entries that issue, oldest first, and nothing as it begins.
//!
//! Clauses: `Parts`: `new`, `begin`, `advance`, `fetch`, `drop_from`, `rob`, `table`, `stations`, `lsq`, `point`,
//! `yrot_at`; `gives`; `Puts`: `none`, `clear`, `push`, `as_slice`; `Decided`: `nothing`, `begin`.
#![tactic(auto)]

mod decided;
mod dropping;
mod fetching;
mod giving;
mod lent;
mod moves;
mod parts;
mod start;

pub use decided::{Decided, PUTS_MAX, Put, Puts};
pub use giving::gives;
pub use parts::Parts;
