//! What the phase looks at.
use byte_ram::Ram;
use cache_tags::Tags;
use circular_buffer::HeapCircularBuffer;
use dep_pred::DepPred;
use lsq::{Keepers, Lsq};
use machine_desc::Desc;
use mshr_file::Mshrs;
use rob_ring::{RobRing, Sources};
use rv_types::REGISTERS;
use second_level::Second;
use stations::Stations;
use visibility::VisPoint;

/// The state before the phase, on which all its tests are made.
#[derive(Drop)]
pub(crate) struct Seen<'a> {
    /// The entries in flight.
    pub(crate) rob: &'a RobRing,
    /// The entries that wait.
    pub(crate) stations: &'a Stations,
    /// The loads and stores in flight.
    pub(crate) lsq: &'a Lsq,
    /// Which store kept a load when it last asked: a guess.
    pub(crate) keepers: &'a Keepers,
    /// The visibility point.
    pub(crate) point: &'a VisPoint,
    /// At each entry's position the youngest roots and the writers of its sources, as it was renamed.
    pub(crate) sources: &'a HeapCircularBuffer<Sources>,
    /// The bits of dependence.
    pub(crate) dependence: &'a DepPred,
    /// The cache.
    pub(crate) tags: &'a Tags,
    /// The second level of the cache.
    pub(crate) second: &'a Second,
    /// The miss registers.
    pub(crate) mshrs: &'a Mshrs,
    /// Memory.
    pub(crate) ram: &'a Ram,
    /// The address behind memory's last byte, at most 2^32.
    pub(crate) memory_end: u64,
    /// The registers, as retired.
    pub(crate) regs: &'a [u32; REGISTERS],
    /// The machine's description.
    pub(crate) desc: &'a Desc,
    /// The divider is free from this cycle on.
    pub(crate) free_from: u64,
    /// The cycle.
    pub(crate) cycle: u32,
}
