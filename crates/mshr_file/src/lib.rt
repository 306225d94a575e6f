//! The miss registers: the lines that are on their way to the cache, each with the cycle in which it comes, in the
//! order in which the registers were taken.
//!
//! Rules: `specs/Registers.antt`, over `window_model/specs/Fill.antt`; `specs/Laws.antt`, that freeing the registers
//! that are due, one after the other, is phase Fill; `docs/machine.md`, "Fill" and "Loads".
//!
//! Promises: the lines that are on their way, each from memory or from the second level, in the order in which their
//! registers were taken; freeing those that are due, one after the other, is phase Fill.
//!
//! Clauses: `Mshrs::new`, `find`, `free`, `full`, `take`, `due`, `misses`, `len`; `due_one_by_one_is_fill`.
#![tactic(auto)]

mod laws;
mod registers;

pub use laws::due_one_by_one_is_fill;
pub use registers::Mshrs;
