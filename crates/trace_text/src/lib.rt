//! The text of a trace: a line for each cycle with its events, and the last line.
//!
//! A put has one line, and nothing here takes memory. `proofs/Growing.antt` has the laws for a trace that is written as
//! the run goes on.
//!
//! Rules: `specs/TraceText.antt`; `docs/formats.md`, "The trace".
//!
//! Promises: what is written is the line of a cycle, or a prefix where the put failed.
//!
//! Clauses: `write_row`, `write_row_with`.
#![tactic(auto)]

mod events;
mod lines;

pub use line_text::write_end;
pub use lines::{write_row, write_row_with};
pub use rv_types::{End, Ending};
