//! Where an address stands in a table (`docs/machine.md`, "Resolve").
ghost use Rattle.std.specs.Prelude.{◌≡◌, ◌<◌, ◌^◌};
ghost use Rattle.window_model.specs.Resolve.{index};

/// Where an address stands in a table of this size: its word's number, by its remainder.
pub fn index(pc: u32, size: usize) -> usize
    requires { 0 < size }
    ensures value { result ≡ index pc size }
    ensures inside { result < size }
    ensures small { result < 2 ^ 32 }
{
    (pc / 4) as usize % size
}
