//! Marks of words and of memory's bytes, as code computes them: what becomes of them in an operation, a load, a store
//! and a call, which bytes are secret as a run begins, and which lose their marks as they are published.
//!
//! Each function answers what its definition in `secret_marks` says. `entry_marks` computes with them beside the parts
//! of a core, `path_marks` beside a run of the instruction set.
//!
//! Rules: `secret_marks/specs/Words.antt`, `Results.antt`, `Marks.antt`, `Shows.antt`, `Ranges.antt`, `Streams.antt`,
//! `Published.antt`; `docs/theorems.md`, "Secrets that are loaded".
//!
//! Promises: the marks of a word that `secret_marks` defines for each operation, for what a load extends and for what
//! is written to a register or to memory; whether a call shows; which bytes are secret; and which of memory's bytes,
//! and how many of a piece, are published.
//!
//! Clauses: `result_marks`, `mark_at`, `any_byte`, `either`, `every_byte`, `lowest_byte`; `signed_half`, `lower_half`,
//! `write_memory`, `write_register`, `call_shows`; `secret_bytes`, `publish`, `count_published`.
#![tactic(auto)]

mod memory;
mod published;
mod registers;
mod results;
mod secret;
mod words;

pub use memory::{lower_half, signed_half, write_memory};
pub use published::{count_published, publish};
pub use registers::{call_shows, write_register};
pub use results::result_marks;
pub use secret::secret_bytes;
pub use words::{UNMARKED, any_byte, either, every_byte, lowest_byte, mark_at};
