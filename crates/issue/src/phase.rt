//! The phase: it decides first, and writes then.
ghost use Rattle.std.specs.Prelude.{◌≡◌};
ghost use Rattle.std.specs.List.{AllByRecursion as Each};
ghost use Rattle.machine_facts.specs.Timely.{WaitsOrDone};
ghost use Rattle.window_model.specs.Issue.{issue};
ghost use Rattle.window_model.specs.inner.Row.{HasRoom, IsLonger, most_issued, with_events};
ghost use Rattle.visibility.specs.Point.{HasAdvanced};
ghost use Rattle.issue.specs.Named.{NamesIssued};

use crate::named::{Positions, name_each};
use crate::placing::place;
use crate::seen::Seen;
use crate::shared::{take_registers, touch};
use core_parts::Parts;
use rename_taint::RenameTaint;
use window_model::Row;

/// Phase Issue of this cycle, once the visibility point has moved over the window, in which no store executes: each
/// entry that may issue begins to execute, oldest first, as far as there are ports, with its event in the row, and its
/// station is freed. A store issues in two parts, each at a port of its own, and begins to execute once both have
/// issued; what has issued of it is known to the queue of stores. A load's lines move to the front of their sets where
/// the cache has them, and take miss registers where they need them, with which the line behind them may be prefetched;
/// what it reads is known to the queue of loads, where loads may pass stores. A division takes the divider. The point
/// goes on to say which entries are visible. It answers the positions of the entries that have issued, or of which a
/// part has, oldest first. It is built into its caller, so that nothing is made where the answer is dropped.
#[inline(always)]
pub fn issue<R: RenameTaint>(parts: &mut Parts<R>, row: &mut Row) -> Positions
    requires advanced { HasAdvanced parts.old.point parts.old.machine.window }
    requires settled { Each WaitsOrDone parts.old.machine.window }
    requires room { HasRoom most_issued row.old }
    ensures machine { parts.new ≡ record parts.old { machine = (issue parts.old.desc parts.old.machine).machine } }
    ensures row { row.new ≡ with_events row.old (issue parts.old.desc parts.old.machine).events }
    ensures advanced { HasAdvanced parts.new.point parts.new.machine.window }
    ensures few { IsLonger most_issued row.old row.new }
    ensures named { NamesIssued parts.old.machine.window parts.new.machine.window result.items }
{
    if !parts.stations.any_able() {
        return Positions::none();
    }
    let divider = parts.ports.divider();
    parts.ports.begin(parts.cycle as u64);
    parts.decided.begin();
    let seen = Seen {
        rob: &parts.rob,
        stations: &parts.stations,
        lsq: &parts.lsq,
        keepers: &parts.keepers,
        point: &parts.point,
        sources: &parts.sources,
        dependence: &parts.dependence,
        tags: &parts.tags,
        second: &parts.second,
        mshrs: &parts.mshrs,
        ram: &parts.ram,
        memory_end: parts.ram.base() as u64 + parts.ram.size() as u64,
        regs: &parts.regs,
        desc: &parts.desc,
        free_from: divider.free_from,
        cycle: parts.cycle,
    };
    seen.decide(&mut parts.ports, &mut parts.decided, row);
    parts.keepers.note(parts.decided.kept);
    place(
        &parts.decided.puts,
        &parts.desc,
        &mut parts.rob,
        &mut parts.stations,
        &mut parts.lsq,
    );
    touch(&mut parts.tags, parts.decided.load);
    take_registers(
        &mut parts.mshrs,
        &mut parts.second,
        parts.decided.load,
        parts.cycle,
        &parts.desc,
    );
    name_each(&parts.decided.puts)
}
