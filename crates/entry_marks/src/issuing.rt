//! Issue moves marks: each entry that has issued in the cycle gets the marks of its operands, and a store's data part
//! those of what it stores.
ghost use Rattle.std.specs.Prelude.{◌≡◌, ◌<◌, List, Some, length, slice_get};
ghost use Rattle.window_model.specs.Order.{before_at};
ghost use Rattle.window_model.specs.declared.Entry.{Entry};
ghost use Rattle.secret_marks.specs.declared.EntryMarks.{EntryMarks};
ghost use Rattle.secret_marks.specs.Marks.{after_issue_marks, issued_marks};
ghost use Rattle.entry_marks.specs.Beside.{marks_before};
ghost use Rattle.entry_marks.specs.IssuedNow.{NamesEachIssued};
ghost use Rattle.entry_marks.specs.Walk.{marks_of, marks_with};

use crate::beside::{marks_at, put_marks};
use crate::marks::Marks;
use crate::walk::Walk;
use core_parts::Parts;
use rename_taint::RenameTaint;
use secret_marks::EntryMarks;

/// Gives each entry the marks with which Issue leaves it in this cycle. `issued` has the positions of the entries that
/// have issued, oldest first. Their marks come from those that older entries had before, so it goes from the youngest
/// of them on.
pub fn mark_issued<R: RenameTaint>(parts: &Parts<R>, marks: &mut Marks, issued: &[u32])
    requires step { length marks.old.window.items ≡ length parts.now.machine.window }
    requires named { NamesEachIssued parts.now.machine.cycle parts.now.machine.window issued.now }
    ensures marks { marks_of marks.new ≡ after_issue_marks parts.now.machine (marks_of marks.old) }
    ensures step { length marks.new.window.items ≡ length marks.old.window.items }
    ensures room { marks.new.window.capacity ≡ marks.old.window.capacity }
{
    for k in (0..issued.len()).rev() {
        let i = issued[k];
        let new = marks_after(parts, marks, i);
        put_marks(&mut marks.window, i, new);
    }
}

// The marks with which Issue leaves the entry at a position.
fn marks_after<R: RenameTaint>(parts: &Parts<R>, marks: &Marks, i: u32) -> EntryMarks
    requires step { length marks.now.window.items ≡ length parts.now.machine.window }
    requires within { i < length parts.now.machine.window }
    ensures { (window : List EntryMarks) (e : Entry) (own : EntryMarks)
        → slice_get parts.now.machine.window i ≡ Some e → slice_get marks.now.window.items i ≡ Some own
        → result ≡ issued_marks parts.now.machine.cycle parts.now.machine.ram.base (marks_with marks.now window)
        (before_at parts.now.machine.window i) (marks_before marks.now.window.items i) e own }
{
    let walk = Walk {
        rob: &parts.rob,
        sources: &parts.sources,
        lsq: &parts.lsq,
        marks: &marks.window,
        regs: &marks.regs,
        bytes: &marks.bytes,
        base: parts.ram.base(),
        cycle: parts.cycle,
    };
    walk.issued_marks(i, parts.rob.lend(i), *marks_at(&marks.window, i))
}
