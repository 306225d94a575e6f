//! Decoding: the instruction that a word of 32 bits encodes, and the word that encodes an instruction.
//!
//! The encodings are those of the RISC-V unprivileged manual, "RV32/64G Instruction Set Listings", RV32I and RV32M, and
//! the forms R, I, S, B, U and J those of its chapter RV32I, "Base Instruction Formats" and "Immediate Encoding
//! Variants". `docs/instruction-set.md` says what is left out.
//!
//! Rules: the table in `rv_types/specs/Decode.antt`; `specs/Forms.antt`; instructions as one level of operations in
//! `specs/Operations.antt`.
//!
//! Promises: decoding is the table; encoding answers a word exactly where one decodes to the instruction, and then that
//! one.
//!
//! Clauses: `decode`, `Decoded::new`; `encode`: `decodes`, `inverse`.
#![tactic(auto)]

mod decoding;
mod encoding;
mod fields;
mod opcodes;
mod operations;

pub use decoding::decode;
pub use encoding::encode;
pub use operations::{Decoded, Operation};
