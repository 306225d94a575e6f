//! A cycle's phases before Retire, and those after it, with the marks beside them (`docs/machine.md`, "A cycle").
ghost use Rattle.std.specs.Prelude.{◌≡◌, ◌<◌, ◌+◌, ◌^◌};
ghost use Rattle.std.specs.List.{AllByRecursion as Each};
ghost use Rattle.elf_loader.specs.inner.Code.{word_at};
ghost use Rattle.machine_facts.specs.Timely.{WaitsOrDone};
ghost use Rattle.visibility.specs.Point.{HasAdvanced};
ghost use Rattle.window_model.specs.inner.Row.{HasRoom, IsLonger, most_after_retire, most_before_retire, most_fetched, with_events};
ghost use Rattle.core_cycle.specs.Phases.{phases_after, phases_before};
ghost use Rattle.entry_marks.specs.Walk.{marks_of};
ghost use Rattle.marked_core.specs.InStep.{AsNoted, InStep, NotYet};
ghost use Rattle.marked_core.specs.Watched.{from_issue, shown_from_issue, shown_to_clear, to_clear};

use crate::phases::{clear_marked, issue_marked, rename_marked, resolve_marked};
use complete::complete;
use core_cycle::{advance_after, advance_after_complete};
use core_parts::Parts;
use entry_marks::Marks;
use fill::fill;
use rename_taint::RenameTaint;
use secret_marks::Shown;
use window_model::Row;

/// The phases before Retire, as those of any core, and what shows in them. `unexposed` notes that nothing resolved is
/// marked.
pub(crate) fn before_retire<R: RenameTaint>(
    parts: &mut Parts<R>,
    marks: &mut Marks,
    unexposed: bool,
    row: &mut Row,
) -> Option<Shown>
    requires advanced { HasAdvanced parts.old.point parts.old.machine.window }
    requires room { HasRoom most_before_retire row.old }
    requires step { InStep parts.old marks.old }
    requires noted { AsNoted unexposed parts.old.machine.window marks.old.window.items }
    ensures machine { parts.new
        ≡ record parts.old { machine = (phases_before parts.old).machine; point = parts.new.point } }
    ensures row { row.new ≡ with_events row.old (phases_before parts.old).events }
    ensures advanced { HasAdvanced parts.new.point parts.new.machine.window }
    ensures few { IsLonger most_before_retire row.old row.new }
    ensures marks { marks_of marks.new ≡ (to_clear parts.old.desc parts.old.machine (marks_of marks.old)).marks }
    ensures shown { result ≡ shown_to_clear parts.old.desc parts.old.machine (marks_of marks.old) }
    ensures step { InStep parts.new marks.new }
{
    fill(parts, row);
    let filled = row.events().len();
    complete(parts, row);
    advance_after_complete(parts, filled, row);
    let completed = row.events().len();
    let shown = resolve_marked(parts, marks, unexposed, row);
    advance_after(parts, completed, row);
    let resolved = row.events().len();
    clear_marked(parts, marks, row);
    advance_after(parts, resolved, row);
    shown
}

/// The phases after Retire, unless the run has ended, as those of any core, and what shows in them.
pub(crate) fn after_retire<R: RenameTaint>(
    parts: &mut Parts<R>,
    marks: &mut Marks,
    row: &mut Row,
) -> Option<Shown>
    requires advanced { HasAdvanced parts.old.point parts.old.machine.window }
    requires settled { Each WaitsOrDone parts.old.machine.window }
    requires fresh { Each (NotYet parts.old.machine.cycle) parts.old.machine.window }
    requires serials { parts.old.machine.next_serial + most_fetched < 2 ^ 64 }
    requires room { HasRoom most_after_retire row.old }
    requires step { InStep parts.old marks.old }
    ensures machine { parts.new
        ≡ record parts.old { machine = (phases_after parts.old).machine; point = parts.new.point } }
    ensures row { row.new ≡ with_events row.old (phases_after parts.old).events }
    ensures advanced { HasAdvanced parts.new.point parts.new.machine.window }
    ensures few { IsLonger most_after_retire row.old row.new }
    ensures marks { marks_of marks.new
        ≡ (from_issue parts.old.desc (word_at parts.old.code) parts.old.machine (marks_of marks.old)).marks }
    ensures shown { result ≡ shown_from_issue parts.old.desc parts.old.machine (marks_of marks.old) }
    ensures step { InStep parts.new marks.new }
{
    if parts.end.is_some() {
        return None;
    }
    let shown = issue_marked(parts, marks, row);
    let issued = row.events().len();
    rename_marked(parts, marks, row);
    advance_after(parts, issued, row);
    parts.fetch(row);
    shown
}
