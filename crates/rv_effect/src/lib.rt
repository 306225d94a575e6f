//! What an instruction makes of the values of its sources, memory apart; where a jump goes and whether it may; a
//! register that is written; and what a system call does.
//!
//! The instruction set's own step uses it, and so does each core.
//!
//! Rules: `rv_types/specs/Isa.antt`, its definitions `effect`, `relative`, `is_misaligned`, `with_reg` and `call`;
//! `docs/instruction-set.md`.
//!
//! Promises: what an instruction makes of its operands is the definition of the instruction set. So is where a jump
//! goes and whether it may, a register that is written, and what a system call leaves.
//!
//! Clauses: `effect`, `relative`, `is_misaligned`, `write_reg`, `call`.
#![tactic(auto)]

mod calls;
mod effects;
mod fields;
mod registers;

pub use calls::call;
pub use effects::{effect, is_misaligned, relative};
pub use fields::Effect;
pub use registers::write_reg;
