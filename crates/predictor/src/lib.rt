//! What is predicted and learnt: of a branch, whether it is taken; of a JALR, where it goes.
//!
//! A branch has a counter of two bits, which moves each time a branch with this counter is resolved; its address and
//! its history say which one that is (`history_pred`). A JALR has the target to which the last one at its place went.
//!
//! Rules: `specs/Tables.antt`, over `window_model/specs/Resolve.antt`; `docs/machine.md`, "Resolve" and "Fetch".
//!
//! Promises: counters and targets are the machine's: a prediction reads one place, and what is learnt changes one place
//! and is told by its event; it has as many of both as some description asks for.
//!
//! Clauses: `Predictor::new`, `described`, `direction`, `target`, `learn_branch`, `learn_target`.
#![tactic(auto)]

mod tables;

pub use tables::Predictor;
