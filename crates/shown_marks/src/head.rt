//! What shows as a call retires.
ghost use Rattle.std.specs.Prelude.{◌≡◌};
ghost use Rattle.window_model.specs.Rename.{is_call};
ghost use Rattle.secret_marks.specs.Shown.{head_shown};
ghost use Rattle.entry_marks.specs.Walk.{marks_of};

use core_parts::Parts;
use entry_marks::{Marks, shown_by};
use mark_words::call_shows;
use rename_taint::RenameTaint;
use rv_types::Kind;
use secret_marks::Shown;

// Whether this is the kind of a call.
fn is_call(kind: Kind) -> bool
    ensures { result ≡ is_call kind }
{
    matches!(kind, Kind::Call)
}

/// The oldest entry, if it is a call that shows, as [`call_shows`] says. None where there is no entry, where the oldest
/// is no call, and where it is one that doesn't show.
pub fn head_shown<R: RenameTaint>(parts: &Parts<R>, marks: &Marks) -> Option<Shown>
    ensures { result ≡ head_shown parts.now.machine.window parts.now.machine (marks_of marks.now) }
{
    if parts.rob.len() == 0 {
        return None;
    }
    let entry = parts.rob.lend(0);
    if !is_call(entry.item.kind) {
        return None;
    }
    if !call_shows(&parts.regs, &marks.regs) {
        return None;
    }
    Some(shown_by(entry))
}
