//! An entry that may issue, by the station at which it waits.
ghost use Rattle.std.specs.Prelude.{◌≡◌, ◌<◌, Some, length, slice_get, true};
ghost use Rattle.window_model.specs.Order.{is_waiting};
ghost use Rattle.refinement.specs.InFlight.{InFlight};
ghost use Rattle.refinement.specs.Refines.{Refines};
ghost use Rattle.refinement.specs.Stations.{station_of};

use rob_ring::RobRing;
use stations::Stations;
use window_model::Entry;

/// An entry that has its turn to issue: it waits, and what it wants is there.
#[derive(Clone, Copy)]
pub struct Candidate<'a> {
    /// The position of the entry, counted from the oldest one.
    pub position: u32,
    /// The position of the entry's station, counted from the first one.
    pub station: u32,
    /// The entry.
    pub entry: &'a Entry,
}

/// The entry that waits at a station, of parts that refine a window.
pub fn candidate_at<'a>(rob: &'a RobRing, stations: &Stations, station: u32) -> Candidate<'a>
    requires refines { (p : InFlight)
        × Refines (record p { window = rob.now.entries; held = stations.now.held }) }
    requires within { station < length stations.now.held }
    ensures entry { slice_get rob.now.entries result.position ≡ Some result.entry.now }
    ensures waits { is_waiting result.entry.now.state ≡ true }
    ensures station { result.station ≡ station }
    ensures at { station ≡ station_of result.position rob.now.entries }
{
    match rob.find(stations.serial(station)) {
        Some(found) => Candidate {
            position: found.position,
            station,
            entry: found.entry,
        },
        None => unreachable!(),
    }
}
