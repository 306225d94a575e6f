//! After how many cycles each a line is told.
ghost use Rattle.std.specs.Prelude.{◌≤◌};

/// A number of cycles, at least 1, after each of which a line is told.
#[derive(Clone, Copy, Debug, PartialEq, Eq)]
pub struct Every {
    pub cycles: u32,
    ghost some: { 1 ≤ cycles },
}
