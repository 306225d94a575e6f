//! Images: static ELF executables of 32 bits for RISC-V, as they lie in a file, what they put into memory, and their
//! code, decoded as it is loaded.
//!
//! Rules: `specs/Faults.antt`, which files are refused and for what; `Image.antt`, what an image puts into memory and
//! what of it may be fetched; `Fields.antt`; `inner/Code.antt`, decoded code; `docs/formats.md`, "Images".
//!
//! Promises: a file is refused by its first fault and accepted where it has none; memory after loading has at each
//! address the byte of the last segment that takes it; code is what executable segments have in the file, as memory
//! then holds it.
//!
//! Clauses: `segments`, `Segments::entry`, `count`, `at`, `load`, `Image::copy`, `Code::word`, `decoded`, `instr`,
//! `same`, `copy`; `instructions_stand_at_words`.
#![tactic(auto)]

mod faults;
mod fetchable;
mod fields;
mod headers;
mod laws;
mod loading;
mod parts;
mod span;
mod unwritten;

pub use faults::ElfFault;
pub use fetchable::Code;
pub use headers::segments;
pub use laws::instructions_stand_at_words;
pub use loading::{Image, load};
pub use parts::{Segment, Segments};
