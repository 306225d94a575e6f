//! Files of cases: runs of the programs, and how each has to end, as plain text that a person reads and writes.
//!
//! What can't be read is refused with the number of its line. Nothing is passed over: a line that belongs to nothing, a
//! column that nothing names, a case that asks for nothing and a file without a case are refused, too.
//!
//! Rules: `docs/cases.md`.
//!
//! Promises: a file that is read has a case, and a case a run; what they say is tested alone.
//!
//! Clauses: `read_cases`, `runs_of`.
#![tactic(auto)]

mod contents;
mod definitions;
mod fault;
mod fields;
mod file;
mod image;
mod lines;
mod parts;
mod report;
mod run;
mod tables;

pub use contents::CaseFile;
pub use fault::Fault;
pub use file::{Cases, read_cases, runs_of};
pub use lines::{Item, ItemKind, Line};
pub use run::{Failures, NOTHING, Program, Run, Text, TextKind};
