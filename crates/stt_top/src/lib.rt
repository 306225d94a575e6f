//! The top call: each command from words to bytes, a status and a note, over files and sinks that it is handed.
//!
//! `main` of `stt_cli` hands `stt_program` its words as they were read, the host's files and its streams; `stt_top`
//! does what the words ask for. What is read, and how it is refused, stands in `run_inputs`.
//!
//! Rules: `specs/Top.antt` and `Promises.antt`, what both promise; `Outcome.antt`, each status; `Work.antt`,
//! `Running.antt`; `docs/theorems.md`, "The program".
//!
//! Promises: `docs/theorems.md`, "The program".
//!
//! Clauses: `stt_top`: `ends`, `statuses`, `promises`, `stays`; `traces_agree`, `one_work`.
#![tactic(auto)]

mod building;
mod clocking;
mod command;
mod loading;
mod outcome;
mod performing;
mod program;
mod running;
mod task;
mod top;

pub use program::stt_program;
pub use top::{one_work, stt_top, traces_agree};
