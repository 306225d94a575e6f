//! The top call of `stt_stats`: from words to what is counted of a core's run, a status and a note, over files and
//! sinks that it is handed.
//!
//! `main` of `stt_stats` hands `stats_program` its words as they were read, the host's files and its streams;
//! `stats_top` does what the words ask for. What is read, and how it is refused, stands in `run_inputs`.
//!
//! Rules: `specs/Top.antt`, what both promise; `Stats.antt`, what is told of a run; `Outcome.antt`, each status;
//! `docs/theorems.md`, "The program stt_stats".
//!
//! Promises: `docs/theorems.md`, "The program stt_stats".
//!
//! Clauses: `stats_top`: `ends`, `statuses`, `stays`.
#![tactic(auto)]

mod asked;
mod counting;
mod lines;
mod numbers;
mod performing;
mod program;
mod stats;
mod top;

pub use program::stats_program;
pub use top::stats_top;
