//! What the operations compute: values, branch tests, the time of a division, and what a load makes of its bytes.
//!
//! The time of a division is this project's own (`docs/machine.md`, "Issue"); all else is from the RISC-V unprivileged
//! manual, chapters RV32I and M.
//!
//! Rules: `rv_types/specs/Value.antt`; `docs/instruction-set.md`.
//!
//! Promises: values, branch tests, the time of a division and the extension of loaded bytes are the formulas.
//!
//! Clauses: `value`, `taken`, `div_time`, `extend`.
#![tactic(auto)]

mod arithmetic;
mod branches;
mod divisions;
mod loads;
mod products;

pub use arithmetic::value;
pub use branches::taken;
pub use divisions::div_time;
pub use loads::extend;
