//! Two images side by side: whether they agree on all that the path of the first loads, where their runs first differ,
//! and the three lines that tell the answer.
//!
//! A core is run on both with one description. What is left of a core's run, cycle by cycle, is said here, too.
//!
//! Rules: `specs/Answer.antt`, over `window_model/specs/Cycle.antt` and `Path.antt`; `specs/Comparison.antt`, of the
//! lines; `docs/theorems.md`, "Two images"; `docs/formats.md`, "The comparison".
//!
//! Promises: `docs/theorems.md`, "Two images"; what is written are the three lines of an answer, or a prefix where a
//! put failed.
//!
//! Clauses: `Pair::new`, `run`; `one_answer`; `write_comparison`.
#![tactic(auto)]

ghost use Rattle.pair_run.specs.Laws.{OneAnswer};

mod answer;
mod loaded;
mod pair;
mod rows;
mod running;
mod starting;
mod text;

pub use answer::{Differ, PairAnswer};
pub use pair::Pair;
pub use text::write_comparison;

/// Two runs have at most one answer. That they have one is what `Pair::run` says.
pub fn one_answer()
    ensures { OneAnswer }
{}
