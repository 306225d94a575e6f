//! The text of a report: the output of a run, the state at its end, and how it ended.
//!
//! A put has one line, and nothing here takes memory. `proofs/Pieces.antt` has the laws for the output that is written
//! as a run goes on.
//!
//! Rules: `specs/Report.antt`; `docs/formats.md`, "The report".
//!
//! Promises: what is written is the text, all of it, or a prefix where a put failed.
//!
//! Clauses: `write_piece`, `write_report`.
#![tactic(auto)]

mod output;
mod rows;
mod state;

pub use output::write_piece;
pub use state::write_report;
