//! What the report and the trace share: a line of text, the draft that it is written on, and the last line.
//!
//! A text is written line by line, one put a line. A `Draft` is a fixed room that takes no memory; a `Line` is a draft
//! and how much of it says something.
//!
//! Rules: `specs/Digits.antt`, how numbers are written; `EndLine.antt`, the last line; `docs/formats.md`, "The last
//! line".
//!
//! Promises: what is written is the last line, all of it, or a prefix where the put failed.
//!
//! Clauses: `write_end`.
#![tactic(auto)]

mod digits;
mod draft;
mod end;
mod line;

pub use draft::{Draft, LINE_MAX};
pub use end::write_end;
pub use line::Line;
