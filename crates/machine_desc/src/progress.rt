//! The bound on the time between two retirements.
ghost use Rattle.std.specs.Prelude.{◌≡◌};
ghost use Rattle.machine_desc.specs.Ranges.{bound};

use crate::Desc;

/// The most cycles from one retirement to the next: within so many one more instruction retires, or the run ends
/// (`docs/machine.md`, "Progress"). Kept for who runs a core from outside and asks how long it may go without.
pub fn bound(desc: &Desc) -> u64
    ensures { result ≡ bound desc.now }
{
    96 + 2 * desc.cache_miss_latency as u64
        + desc.cache_hit_latency as u64
        + desc.units_mul_latency as u64
}
