//! The core with marks beside it: in each cycle the marks of bytes that may depend on a secret move with what they
//! stand beside, and what shows of them first is told; a run goes on until something shows.
//!
//! The parts and their phases are those of any core (`core_parts`, `core_cycle`); how marks move is computed in
//! `entry_marks`, and what shows of them in `shown_marks`.
//!
//! Rules: `secret_marks/specs/Marks.antt`, `Watch.antt`, `Shown.antt`, `Ranges.antt`, `Streams.antt`, `Published.antt`;
//! `specs/Watched.antt`, a watched cycle cut at Retire; `InStep.antt`, when marks stand beside parts;
//! `docs/theorems.md`, "Secrets that are loaded".
//!
//! Promises: one call is one cycle of the written machine, its marks are then those of the watched cycle, and the
//! answer is what shows first in it; of a run, what shows first and in which cycle, and how many bytes it published.
//!
//! Clauses: `MarkedCore::new`, `cycle`; `first_shown`.
#![tactic(auto)]

mod clocking;
mod halves;
mod marked;
mod opening;
mod phases;
mod running;

pub use marked::MarkedCore;
pub use running::first_shown;
