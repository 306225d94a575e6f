//! How many blocks a generated image has.
ghost use Rattle.std.specs.Prelude.{◌≤◌};

/// The most blocks that a generated image may be asked to have.
pub const BLOCKS_MAX: u32 = 4096;

/// A number of blocks of a generated image: 1 to `BLOCKS_MAX`.
#[derive(Clone, Copy, Debug, PartialEq, Eq)]
pub struct Blocks {
    pub count: u32,
    ghost some: { 1 ≤ count },
    ghost few: { count ≤ 4096 },
}
