//! What is looked at.
use machine_desc::Desc;
use rob_ring::RobRing;
use stations::Stations;
use visibility::VisPoint;

/// The parts that tell of the window between two cycles.
#[derive(Drop)]
pub(crate) struct Seen<'a> {
    /// The entries in flight.
    pub(crate) rob: &'a RobRing,
    /// The stations, with the entries that wait.
    pub(crate) stations: &'a Stations,
    /// The point up to which entries are visible.
    pub(crate) point: &'a VisPoint,
    /// The description of the machine.
    pub(crate) desc: &'a Desc,
}
