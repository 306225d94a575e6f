//! Values that are given: those of Done entries, but for loads that are held back (`docs/machine.md`, "Writers and
//! roots").
ghost use Rattle.std.specs.Prelude.{◌≡◌, ◌<◌, ◌≤◌, ◌-◌, ◌^◌, ◌&&◌, true, map, take, drop, if◌then◌else◌};
ghost use Rattle.std.specs.List.{All};
ghost use Rattle.machine_desc.specs.declared.Defence.{Defence};
ghost use Rattle.core_parts.specs.Given.{given_from};
ghost use Rattle.refinement.specs.Waiters.{gives_at};
ghost use Rattle.refinement.specs.Stations.{struck_by_move, struck_each};
ghost use Rattle.stations.specs.Stations.{struck};
ghost use Rattle.visibility.specs.Point.{CanAdvance, HasAdvanced, moved_over};
ghost use Rattle.window_model.specs.Order.{is_done, is_load};
ghost use Rattle.window_model.specs.Ready.{holds};
ghost use Rattle.window_model.specs.Serials.{Rise};

use machine_desc::Defence;
use rob_ring::RobRing;
use stations::Stations;
use visibility::VisPoint;
use window_model::Entry;

/// Whether an entry gives its value to those that read it: it is Done, and under `hold` no load behind the visibility
/// point.
pub fn gives(entry: &Entry, defence: Defence, point: &VisPoint) -> bool
    ensures { result ≡ gives_at (record { holds = holds defence; point = point.now.serial }) entry.now }
{
    if !entry.is_done() {
        return false;
    }
    defence != Defence::Hold || !entry.is_load() || point.visible(entry.serial)
}

/// The visibility point moves over the window, and the stations are told which loads give their values from then on,
/// where results of loads are held back: those that are Done, and that the point has passed.
pub(crate) fn advance_and_wake(point: &mut VisPoint, rob: &RobRing, stations: &mut Stations)
    requires rise { Rise rob.now.entries }
    requires few { All (λ e. e.serial < 2 ^ 64 - 1) rob.now.entries }
    requires can { CanAdvance point.old rob.now.entries }
    ensures moved { point.new ≡ moved_over rob.now.entries point.old }
    ensures advanced { HasAdvanced point.new rob.now.entries }
    ensures woken { stations.new ≡ record stations.old {
      held = struck_by_move (record { holds = true; point = point.old.serial })
          (record { holds = true; point = point.new.serial }) rob.now.entries stations.old.held;
    } }
{
    let from = first_hidden(rob, point);
    point.advance(rob);
    wake_given(rob, point, from, stations);
}

// The position of the oldest entry that isn't visible, as many as there are where each is. The reorder buffer finds it
// by its serial, so no walk over the entries is needed.
fn first_hidden(rob: &RobRing, point: &VisPoint) -> u32
    requires rise { Rise rob.now.entries }
    requires few { All (λ e. e.serial < 2 ^ 64 - 1) rob.now.entries }
    ensures visible { All (λ e. e.serial ≤ point.now.serial) (take result rob.now.entries) }
    ensures hidden { All (λ e. point.now.serial < e.serial) (drop result rob.now.entries) }
{
    rob.position_of(point.hidden_from())
}

// From a position on, no station awaits a load that is Done and visible.
fn wake_given(rob: &RobRing, point: &VisPoint, from: u32, stations: &mut Stations)
    requires { Rise rob.now.entries }
    ensures { stations.new ≡ record stations.old {
      held = struck_each (given_from from point.now.serial rob.now.entries) stations.old.held;
    } }
{
    for i in from..rob.len() {
        let entry = rob.lend(i);
        if !point.visible(entry.serial) {
            return;
        }
        wake_if_given(entry, stations);
    }
}

// No station awaits an entry that is visible, if it is a load that is Done.
fn wake_if_given(entry: &Entry, stations: &mut Stations)
    ensures { stations.new ≡ record stations.old {
      held = if is_load entry.now.item.kind && is_done entry.now.state
          then map (struck entry.now.serial) stations.old.held else stations.old.held;
    } }
{
    if entry.is_load() && entry.is_done() {
        stations.wake(entry.serial);
    }
}
