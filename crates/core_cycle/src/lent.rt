//! What is lent of parts whose visibility point has moved over the window.
ghost use Rattle.visibility.specs.Point.{HasAdvanced};
ghost use Rattle.core_parts.specs.Lent.{TellsPart, TellsReady};
ghost use Rattle.core_cycle.specs.Waiting.{HoldsByPoint};

use core_parts::Parts;
use rename_taint::RenameTaint;
use stations::Stations;

/// The stations: they hold the entries that wait, where results are held back by the point, and tell which are ready,
/// and of a store which part is.
pub(crate) fn stations_of<R: RenameTaint>(parts: &Parts<R>) -> &Stations
    requires { HasAdvanced parts.now.point parts.now.machine.window }
    ensures waiting { HoldsByPoint parts.now.desc result.now parts.now.machine.window }
    ensures ready { TellsReady parts.now.desc result.now parts.now.machine.window }
    ensures parts { TellsPart parts.now.desc result.now parts.now.machine.window }
{
    &parts.stations
}
