//! What an entry wakes as it becomes Done (`docs/machine.md`, "Writers and roots").
ghost use Rattle.std.specs.Prelude.{◌≡◌};
ghost use Rattle.refinement.specs.Stations.{struck_if_given};
ghost use Rattle.refinement.specs.Telling.{hold_of};

use core_parts::gives;
use machine_desc::Desc;
use stations::Stations;
use visibility::VisPoint;
use window_model::Entry;

/// No station awaits the entry any more, if it gives its value. A load that is held back gives it later, as the point
/// moves.
pub(crate) fn wake_readers(entry: &Entry, desc: &Desc, point: &VisPoint, stations: &mut Stations)
    ensures { stations.new
        ≡ record stations.old { held = struck_if_given (hold_of desc.now point.now) entry.now stations.old.held } }
{
    if gives(entry, desc.stt_defence, point) {
        stations.wake(entry.serial);
    }
}
