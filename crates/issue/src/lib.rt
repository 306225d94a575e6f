//! Phase Issue over the parts of a core: the oldest entries whose operands are there begin to execute, as far as there
//! are ports.
//!
//! Every test is made on what the parts hold before the phase (`Seen`); what is decided is written then.
//!
//! Rules: `window_model/specs/MayIssue.antt`, `Ports.antt`, `Issue.antt` and `Access.antt`; `specs/State.antt`, what
//! the phase looks at; `specs/Puts.antt`, entries before they are in their places; `specs/Named.antt`, what the phase
//! answers; `docs/machine.md`, "Issue" and "Loads".
//!
//! Promises: what is left is what phase Issue leaves of every machine with this window, cache, miss registers, divider,
//! memory and registers in this cycle; the stations of the entries that begin are freed, and the parts go on to refine
//! the window. The answer names the entries that have issued, or of which a part has, and no others.
//!
//! Clauses: `issue`; `Positions::as_slice`.
#![tactic(auto)]

ghost use Rattle.issue.specs.Telling.{TellsIssue};

mod access;
mod begin;
mod candidate;
mod decide;
mod gate;
mod loads;
mod named;
mod operands;
mod parts;
mod phase;
mod placing;
mod seen;
mod shared;

pub use candidate::{Candidate, candidate_at};
pub use named::Positions;
pub use phase::issue;

/// What taint lets go by an entry's roots, with what Issue asks besides, is what lets it issue, where the parts refine
/// the window and the visibility point has moved over it (`docs/machine.md`, "Issue").
pub fn parts_tell_who_may_issue()
    ensures { TellsIssue }
{}
