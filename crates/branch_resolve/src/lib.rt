//! Branches and JALRs take effect: which one is resolved, and what comes of it.
//!
//! The oldest one that is Done, not resolved and without a tainted operand is resolved; under the defence `delay` the
//! oldest such one that is visible. Until then it teaches the predictor nothing and squashes nothing, since both would
//! tell of what it computed from. The roots of taint of an entry's sources stand beside the window, by position.
//!
//! Rules: `visibility/specs/Pick.antt`; `specs/Effect.antt`, over `window_model/specs/Resolve.antt`; `docs/machine.md`,
//! "Resolve".
//!
//! Promises: the position is that of the oldest branch or JALR that is Done, not resolved and without a root that isn't
//! visible, under `delay` of the oldest such one that the point has reached; predictor and events are those of the
//! machine's `learn`, under each description of the predictor's sizes, and there is one.
//!
//! Clauses: `pick`, `resolve`.
#![tactic(auto)]

mod choice;
mod effect;

pub use choice::pick;
pub use effect::{Resolution, resolve};
