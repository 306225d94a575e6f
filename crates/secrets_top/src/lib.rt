//! The top call of `stt_secrets`: from words to what is told of a run with marks beside it, of a core or of the
//! instruction set, a status and a note, over files and sinks that it is handed.
//!
//! `main` of `stt_secrets` hands `secrets_program` its words as they were read, the host's files and its streams;
//! `secrets_top` does what the words ask for. What is read, and how it is refused, stands in `run_inputs`.
//!
//! Rules: `specs/Top.antt` and `Promises.antt`, what both promise; `Verdict.antt`, what is told of a run;
//! `Ranges.antt`, which ranges are refused; `Refused.antt`, each status and note; `docs/theorems.md`, "The program
//! stt_secrets".
//!
//! Promises: `docs/theorems.md`, "The program stt_secrets", "Secrets that are loaded", "Secrets that are published" and
//! "Constant time on the path".
//!
//! Clauses: `secrets_top`: `ends`, `statuses`, `promises`, `stays`.
#![tactic(auto)]

mod path;
mod performing;
mod program;
mod ranges;
mod refusal;
mod task;
mod top;
mod verdict;
mod wish;

pub use program::secrets_program;
pub use top::secrets_top;
