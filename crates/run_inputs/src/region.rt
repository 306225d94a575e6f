//! Where a run's memory lies, and which accesses it takes.
ghost use Rattle.std.specs.Prelude.{◌≡◌, ◌<◌, ◌≤◌, ◌+◌, ◌%◌, ◌^◌};

use machine_desc::Desc;

/// The first address of memory where no description is named.
pub(crate) const RAM_BASE: u32 = 65536;

/// The size of memory in bytes where no description is named.
pub(crate) const RAM_SIZE: u32 = 1048576;

/// The first address of a run's memory, its size in bytes, and whether an access there may have any address.
#[derive(Clone, Copy, Debug)]
pub(crate) struct Region {
    pub base: u32,
    pub size: u32,
    pub misaligned: bool,
    ghost base_aligned: { base % 16 ≡ 0 },
    ghost size_aligned: { size % 16 ≡ 0 },
    ghost some: { 0 < size },
    ghost ends: { base + size ≤ 2 ^ 32 },
}

impl Region {
    ghost use Rattle.run_inputs.specs.Input.{base_of, size_of, misaligned_of};

    /// The memory of a run, by its description if it has one.
    pub fn of(desc: Option<Desc>) -> Self
        ensures base { result.base ≡ base_of desc }
        ensures size { result.size ≡ size_of desc }
        ensures misaligned { result.misaligned ≡ misaligned_of desc }
    {
        match desc {
            None => Region {
                base: RAM_BASE,
                size: RAM_SIZE,
                misaligned: false,
            },
            Some(desc) => Region {
                base: desc.ram_base,
                size: desc.ram_size,
                misaligned: desc.takes_any_address(),
            },
        }
    }
}
