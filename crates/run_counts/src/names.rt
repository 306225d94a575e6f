//! The names of the numbers.
ghost use Rattle.std.specs.Prelude.{◌≡◌, ◌<◌, ◌≤◌, Some, length, slice_get};
ghost use Rattle.run_counts.specs.Counted.{names};

/// How many numbers there are.
pub const COUNTED: usize = 35;

/// The most bytes of a name.
pub const NAME_MAX: usize = 21;

/// The name of the number at a place (`docs/formats.md`, "The program stt_stats").
#[tactic(auto, unfolding(crate::specs::Counted::names))]
pub fn name_at(place: usize) -> &'static [u8]
    requires { place < COUNTED }
    ensures name { slice_get names place ≡ Some result.now }
    ensures short { length result.now ≤ NAME_MAX }
{
    match place {
        0 => b"retired",
        1 => b"fetched",
        2 => b"renamed",
        3 => b"alu",
        4 => b"mul",
        5 => b"divisions",
        6 => b"division_cycles",
        7 => b"store_addresses",
        8 => b"store_data",
        9 => b"load_hits",
        10 => b"load_second",
        11 => b"load_misses",
        12 => b"load_joins",
        13 => b"load_forwards",
        14 => b"load_faults",
        15 => b"prefetch_second",
        16 => b"prefetch_memory",
        17 => b"fills",
        18 => b"done",
        19 => b"branches_taken",
        20 => b"branches_not_taken",
        21 => b"jumps",
        22 => b"mispredicted_branches",
        23 => b"mispredicted_jumps",
        24 => b"counters",
        25 => b"targets",
        26 => b"cleared_stores",
        27 => b"violations",
        28 => b"dependence_bits",
        29 => b"load_squashes",
        30 => b"dropped",
        31 => b"store_hits",
        32 => b"store_misses",
        33 => b"calls",
        _ => b"output_bytes",
    }
}
