//! Programs that a number generates: large inputs for the simulator, the same from the same number.
//!
//! Rules: `specs/Generated.antt`, which program and the bytes of its file; `docs/formats.md`, "Generated images".
//!
//! Promises: the bytes are those of the written image of the seed and the number of blocks.
//!
//! Clauses: `generate`.
#![tactic(auto)]

mod blocks;
mod draws;
mod image;

pub use image::generate;
