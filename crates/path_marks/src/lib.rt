//! A run of the instruction set with marks beside it: where what an instruction leaks is marked, that shows.
//!
//! The run is that of `isa_step`, and marks of words are computed by `mark_words`. What one such run tells of every
//! core is proved in `constant_time`.
//!
//! Rules: `constant_time/specs/PathMarks.antt`, how marks move with a step, and what shows; `specs/State.antt`, the
//! state that is kept; `Moved.antt`, how an instruction that doesn't fault moves marks; `Walked.antt`, what is told of
//! a run; `docs/theorems.md`, "Constant time on the path".
//!
//! Promises: one call of `step` is one step of the written instruction set, and the marks are those behind it; of a
//! run, the exact first step in which something marked shows, with its kind and address; where nothing does, how many
//! steps were taken, how the run ended and how many bytes it published. It takes no memory once it has begun.
//!
//! Clauses: `MarkedPath::new`, `pc`, `stream`, `public`, `shown`, `step`; `first_shown`.
#![tactic(auto)]

mod marked;
mod moving;
mod showing;
mod sources;
mod walking;

pub use marked::MarkedPath;
pub use walking::{Walked, first_shown};
