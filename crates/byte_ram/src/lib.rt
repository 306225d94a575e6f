//! Memory: a base address and a list of bytes, read and written in all widths.
//!
//! Rules: `specs/Access.antt`, which accesses are refused and what the others do, over `rv_types/specs/Memory.antt`;
//! `docs/instruction-set.md`, "Memory".
//!
//! Promises: memory is a base, bytes, and whether it takes any address; reads and writes are refused exactly by address
//! and width, misalignment first where it is refused; a write changes its bytes alone.
//!
//! Clauses: `get`, `put`, `load_fault`, `store_fault`, `byte`, `bytes`, `holds`, `base`, `size`, `misaligned`, `place`,
//! `copy`, `new`.
#![tactic(auto)]

mod bytes;
mod ram;

pub use bytes::{byte_or_zero, half_at, word_at};
pub use ram::Ram;
