//! Marks of entries, as code walks them beside the parts of a core: what entries get as they issue, what they leave in
//! registers and memory as they retire, what is left behind a squash and comes with Rename, and what shows of a branch
//! or JALR that is resolved.
//!
//! Each function answers what its definition in `secret_marks` says; marks of single words are those of `mark_words`.
//! Which store gives a byte to a load the queue of stores tells. `marked_core` walks them beside a core.
//!
//! Rules: `secret_marks/specs/Marks.antt`, `Results.antt`, `Shows.antt`, `Shown.antt`; `specs/Walk.antt`, what is
//! looked at; `Oldest.antt`, what Retire's entries leave; `IssuedNow.antt`, which entries are named as those that
//! issued; `docs/theorems.md`, "Secrets that are loaded".
//!
//! Promises: the marks that `secret_marks` defines as Issue leaves them, as Retire moves them to registers and memory,
//! of what a squash leaves and Rename brings, and what shows as a branch or JALR is resolved, computed over a reorder
//! buffer.
//!
//! Clauses: `mark_issued`, `leaving`, `leave`, `Walk::operands`, `Walk::first_source`, `Walk::second_source`, `cut`,
//! `extend`, `resolved_shown`.
#![tactic(auto)]

mod beside;
mod bytes;
mod issued;
mod issuing;
mod marks;
mod oldest;
mod operands;
mod retiring;
mod shows;
mod walk;

pub use issuing::mark_issued;
pub use marks::{Marks, cut, extend};
pub use oldest::{LEAVING_MAX, Leaving, LeavingEntry};
pub use operands::Operands;
pub use retiring::{leave, leaving};
pub use shows::{resolved_shown, shown_by};
pub use walk::Walk;
