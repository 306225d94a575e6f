//! What is looked at.
use entry_marks::Walk;
use machine_desc::Desc;
use stations::Stations;
use visibility::VisPoint;

/// The parts that tell of the window, and the marks beside it.
#[derive(Drop)]
pub(crate) struct Seen<'a> {
    /// The entries in flight and their sources, with the marks.
    pub(crate) walk: Walk<'a>,
    /// The stations, with the entries that wait.
    pub(crate) stations: &'a Stations,
    /// The point up to which entries are visible.
    pub(crate) point: &'a VisPoint,
    /// The description of the machine.
    pub(crate) desc: &'a Desc,
}
