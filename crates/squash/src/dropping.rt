//! The squash: what the parts drop (`docs/machine.md`, "Resolve").
ghost use Rattle.std.specs.Prelude.{◌≡◌, ◌-◌, length, nat_lt};
ghost use Rattle.std.specs.List.{filter};
ghost use Rattle.window_model.specs.Resolve.{freed_from};
ghost use Rattle.window_model.specs.Serials.{Rise, below};
ghost use Rattle.rename_taint.specs.Writes.{before_serial};
ghost use Rattle.lsq.specs.Queues.{cut_at};

use lsq::Lsq;
use rename_taint::RenameTaint;
use rob_ring::RobRing;
use stations::Stations;
use unit_ports::Ports;

/// Drops the entries from the serial `first` on: the reorder buffer, the stations and the queues of loads and stores
/// let go of them, each register has the writer and the root that it had before them, and the divider is free again
/// where one of them was the last to use it. The answer is how many entries there were of them.
pub fn squash_after<R: RenameTaint>(
    first: u64,
    rob: &mut RobRing,
    table: &mut R,
    stations: &mut Stations,
    lsq: &mut Lsq,
    ports: &mut Ports,
) -> u32
    requires rise { Rise rob.old.entries }
    ensures dropped { result ≡ length rob.old.entries - length (below first rob.old.entries) }
    ensures rob { rob.new ≡ record rob.old { entries = below first rob.old.entries } }
    ensures names { R.writes table.new ≡ before_serial first (R.writes table.old) }
    ensures same_room { R.room table.new ≡ R.room table.old }
    ensures stations { stations.new ≡ record stations.old {
      held = filter (λ s. nat_lt s.serial first) stations.old.held;
    } }
    ensures lsq { lsq.new ≡ cut_at first lsq.old }
    ensures ports { ports.new ≡ record ports.old { divider = freed_from first ports.old.divider } }
{
    let len = rob.len();
    let kept = rob.position_of(first);
    rob.cut(kept);
    table.cut_back(first);
    stations.drop_from(first);
    lsq.cut(first);
    ports.drop_from(first);
    len - kept
}
