//! A cycle's phases in their order (`docs/machine.md`, "A cycle").
ghost use Rattle.std.specs.Prelude.{◌≡◌, ◌<◌, ◌+◌, ◌^◌};
ghost use Rattle.std.specs.List.{AllByRecursion as Each};
ghost use Rattle.machine_facts.specs.Timely.{WaitsOrDone};
ghost use Rattle.visibility.specs.Point.{HasAdvanced};
ghost use Rattle.window_model.specs.inner.Row.{HasRoom, IsLonger, most_after_retire, most_before_retire, most_fetched, with_events};
ghost use Rattle.core_cycle.specs.Phases.{phases_after, phases_before};

use crate::moves::{advance_after, advance_after_complete};
use clear::clear;
use complete::complete;
use core_parts::Parts;
use fill::fill;
use issue::issue;
use rename::rename;
use rename_taint::RenameTaint;
use resolve::resolve;
use window_model::Row;

/// The phases before Retire. The visibility point says which entries are visible as they begin, as Resolve and then
/// Clear ask for it, and once they are through.
pub(crate) fn before_retire<R: RenameTaint>(parts: &mut Parts<R>, row: &mut Row)
    requires advanced { HasAdvanced parts.old.point parts.old.machine.window }
    requires room { HasRoom most_before_retire row.old }
    ensures machine { parts.new
        ≡ record parts.old { machine = (phases_before parts.old).machine; point = parts.new.point } }
    ensures row { row.new ≡ with_events row.old (phases_before parts.old).events }
    ensures advanced { HasAdvanced parts.new.point parts.new.machine.window }
    ensures few { IsLonger most_before_retire row.old row.new }
{
    fill(parts, row);
    let filled = row.events().len();
    complete(parts, row);
    advance_after_complete(parts, filled, row);
    let completed = row.events().len();
    resolve(parts, row);
    advance_after(parts, completed, row);
    let resolved = row.events().len();
    clear(parts, row);
    advance_after(parts, resolved, row);
}

/// The phases after Retire, unless the run has ended; no store executes as they begin. The visibility point says which
/// entries are visible as Issue asks for it, and once Rename has brought in others.
#[inline(always)]
pub(crate) fn after_retire<R: RenameTaint>(parts: &mut Parts<R>, row: &mut Row)
    requires advanced { HasAdvanced parts.old.point parts.old.machine.window }
    requires settled { Each WaitsOrDone parts.old.machine.window }
    requires serials { parts.old.machine.next_serial + most_fetched < 2 ^ 64 }
    requires room { HasRoom most_after_retire row.old }
    ensures machine { parts.new
        ≡ record parts.old { machine = (phases_after parts.old).machine; point = parts.new.point } }
    ensures row { row.new ≡ with_events row.old (phases_after parts.old).events }
    ensures advanced { HasAdvanced parts.new.point parts.new.machine.window }
    ensures few { IsLonger most_after_retire row.old row.new }
{
    if parts.end.is_some() {
        return;
    }
    let _ = issue(parts, row);
    let issued = row.events().len();
    rename(parts, row);
    advance_after(parts, issued, row);
    parts.fetch(row);
}
