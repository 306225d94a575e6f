//! The bits of dependence: which loads wait for the addresses of older stores, and what is learnt of a load that passed
//! a store wrongly.
//!
//! A load may pass older stores whose addresses aren't known. One that passed a store wrongly is fetched anew, and its
//! bit is set for good: from then on the loads that share this bit wait.
//!
//! Rules: `specs/Bits.antt`, over `window_model/specs/Dependence.antt`; `docs/machine.md`, "Clear".
//!
//! Promises: the bits are the machine's, as many as the description says and none set at first; a load waits exactly
//! where its bit is set, and what is learnt sets this bit alone and is told by its event.
//!
//! Clauses: `DepPred::new`, `waits`, `learn`.
#![tactic(auto)]

mod bits;

pub use bits::DepPred;
