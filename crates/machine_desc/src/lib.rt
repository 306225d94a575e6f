//! Machine descriptions: the sizes and latencies of a core, read from a TOML text.
//!
//! `docs/formats.md`, "Machine descriptions", has every key with its meaning, range and shape, and the order in which
//! faults are looked for.
//!
//! Rules: `specs/Table.antt`, the keys; `Description.antt`, what a text describes; `Ranges.antt`; `Questions.antt`,
//! what one asks of the machine; `docs/formats.md`, "Machine descriptions".
//!
//! Promises: a text is refused by its first fault, and else its description holds the numbers of its keys, all in range
//! and of their shapes.
//!
//! Clauses: `read_desc`, `every_desc`, `one_description`, `some_description`, `example_described`, `bound`, and the
//! questions of `Desc` (`stores_in_one`, `loads_pass`, `takes_any_address`, `has_prefetch`).
#![tactic(auto)]

ghost use Rattle.machine_desc.specs.Allowed.{AreDesc};
ghost use Rattle.machine_desc.specs.inner.Allowed.{are_desc_prop};

mod bounds;
mod document;
mod example;
mod fault;
mod keys;
mod laws;
mod name;
mod progress;
mod questions;
mod read;

pub use bounds::{ENTRIES_MAX, LOADS_MAX, QUEUE_MAX, STATIONS_MAX, STORES_MAX};
pub use example::EXAMPLE;
pub use fault::{DescFault, Subject};
pub use keys::{Key, Section};
pub use laws::{every_desc, example_described, one_description, some_description};
pub use name::{NAME_MAX, Name};
pub use progress::bound;
pub use read::read_desc;

/// Until when what a load has read counts as a secret.
#[derive(Clone, Copy, Debug, PartialEq, Eq)]
pub enum SttModel {
    /// Until each older branch and indirect jump is resolved and, where loads may pass stores, each older store is
    /// cleared.
    Spectre,
    /// Until no older instruction can squash the load any more.
    Futuristic,
    /// Not at all: nothing is protected.
    Off,
}

/// What becomes of a value that counts as a secret.
#[derive(Clone, Copy, Debug, PartialEq, Eq)]
pub enum Defence {
    /// What could show a value that counts as a secret waits: addresses of loads, divisions, and branches and indirect
    /// jumps that take effect.
    Stt,
    /// No value that counts as a secret is used at all: a load's result is held back until the load is visible.
    Hold,
    /// Whatever could show an operand waits until it is visible, be the operand a secret or not: addresses of loads and
    /// stores, divisions, and branches and indirect jumps that take effect.
    Delay,
}

/// A machine description of a known version: every number is in its key's range in that version and of its key's shape,
/// the model and the defence are ones that the version knows, a miss takes longer than a hit, RAM ends at or below
/// 2^32, there are two miss registers where an access may lie in two lines, and a line of the second level comes later
/// than a hit and sooner than from memory. A number that its version doesn't know has the value that it has where it is
/// left out.
#[derive(Clone, Copy, Debug, PartialEq, Eq)]
pub struct Desc {
    /// The version of the machine that is described.
    pub version: u32,
    /// Instructions fetched a cycle at most, and renamed a cycle at most.
    pub core_fetch_width: u32,
    /// Instructions retired a cycle at most.
    pub core_retire_width: u32,
    /// Entries of the reorder buffer.
    pub core_rob: u32,
    /// Entries of the reservation stations.
    pub core_stations: u32,
    /// Loads in flight at most.
    pub core_loads: u32,
    /// Stores in flight at most.
    pub core_stores: u32,
    /// Items of the fetch queue.
    pub core_queue: u32,
    /// Arithmetic units: so many simple operations issue a cycle at most.
    pub units_alus: u32,
    /// Cycles of a multiplication.
    pub units_mul_latency: u32,
    /// Two-bit counters that predict branches.
    pub predictor_counters: u32,
    /// Entries of the table of jump targets.
    pub predictor_btb: u32,
    /// Bits that tell which loads wait for the addresses of older stores; with 0 every load waits.
    pub predictor_depend: u32,
    /// Branches whose directions the global history keeps.
    pub predictor_history: u32,
    /// Addresses of the return stack; with 0 there is none.
    pub predictor_returns: u32,
    /// Sets of the cache.
    pub cache_sets: u32,
    /// Lines of a set.
    pub cache_ways: u32,
    /// Bytes of a line.
    pub cache_line: u32,
    /// Cycles of a load that finds its line.
    pub cache_hit_latency: u32,
    /// Cycles of a load that doesn't.
    pub cache_miss_latency: u32,
    /// Misses under way at most.
    pub cache_mshrs: u32,
    /// Sets of the second level; with 0 there is none.
    pub cache_second_sets: u32,
    /// Lines of a set of the second level.
    pub cache_second_ways: u32,
    /// Cycles of a load that finds its line in the second level alone.
    pub cache_second_latency: u32,
    /// 1 where the line behind one that a load fetches is fetched with it, else 0.
    pub cache_prefetch: u32,
    /// RAM's first address.
    pub ram_base: u32,
    /// RAM's length in bytes.
    pub ram_size: u32,
    /// 1 where a load or store may have any address, 0 where its address has to be a multiple of its width.
    pub ram_misaligned: u32,
    /// Until when what a load has read counts as a secret.
    pub stt_model: SttModel,
    /// What becomes of a tainted value.
    pub stt_defence: Defence,
    pub ghost stands: { AreDesc
        version core_fetch_width core_retire_width core_rob core_stations core_loads core_stores
        core_queue units_alus units_mul_latency predictor_counters predictor_btb predictor_depend
        predictor_history predictor_returns cache_sets cache_ways cache_line cache_hit_latency
        cache_miss_latency cache_mshrs cache_second_sets cache_second_ways cache_second_latency
        cache_prefetch ram_base ram_size ram_misaligned stt_model stt_defence } by { are_desc_prop },
}
