//! What shows of marked values in a cycle, as the parts of a core tell it: the call at the head, and the oldest operand
//! that tells an address or the time of a division.
//!
//! The operands are asked on the state that Issue finds, and of the entries alone of which something may issue.
//!
//! Rules: `secret_marks/specs/Shows.antt` and `Shown.antt`; `specs/State.antt`, what is looked at; `docs/theorems.md`,
//! "Secrets that are loaded".
//!
//! Promises: what `secret_marks` says that shows in a cycle of a marked operand as Issue finds it, and of a call at the
//! head, computed over the parts of a core: the oldest instruction alone.
//!
//! Clauses: `operands_shown`, `head_shown`.
#![tactic(auto)]

mod base;
mod head;
mod operands;
mod seen;

pub use head::head_shown;
pub use operands::operands_shown;
