//! What is counted of a run: how often each kind of event came, and what events tell of amounts, as numbers of 64 bits.
//!
//! Rules: `specs/Counted.antt`, which number an event adds to, and what the numbers of a run are; `docs/formats.md`,
//! "The program stt_stats".
//!
//! Promises: what is counted of an event, and of two parts of a run, is what the definition counts of them.
//!
//! Clauses: `Counts`: `new`, `count_plain`, `count_event`, `add`.
#![tactic(auto)]

mod counts;
mod names;
mod places;

pub use counts::Counts;
pub use names::{COUNTED, NAME_MAX, name_at};
