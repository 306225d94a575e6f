//! What shows of a marked value as a branch or JALR is resolved (`docs/theorems.md`, "Secrets that are loaded").
ghost use Rattle.std.specs.Prelude.{◌≡◌, ◌<◌, ◌&&◌, Some, length, slice_get};
ghost use Rattle.secret_marks.specs.Shows.{outcome_marked};
ghost use Rattle.secret_marks.specs.Shown.{resolved_shown, shown_by};

use crate::beside::marks_at;
use circular_buffer::HeapCircularBuffer;
use mark_words::any_byte;
use rob_ring::RobRing;
use secret_marks::{EntryMarks, Shown};
use window_model::Entry;

/// The instruction of an entry.
pub fn shown_by(entry: &Entry) -> Shown
    ensures { result ≡ shown_by entry.now }
{
    Shown {
        kind: entry.item.kind,
        serial: entry.serial,
        pc: entry.item.pc,
    }
}

// Whether the entry at a position is resolved, and its value, or where it goes, is marked. Marks are looked at of a
// resolved entry alone.
fn is_exposed(entry: &Entry, marks: &HeapCircularBuffer<EntryMarks>, i: u32) -> bool
    requires { i < length marks.now.items }
    ensures { (mark : EntryMarks) → slice_get marks.now.items i ≡ Some mark
        → result ≡ (entry.now.resolved && outcome_marked mark) }
{
    if !entry.resolved {
        return false;
    }
    let mark = marks_at(marks, i);
    mark.goes || any_byte(mark.result)
}

/// The oldest branch or JALR that is resolved with a marked outcome.
pub fn resolved_shown(rob: &RobRing, marks: &HeapCircularBuffer<EntryMarks>) -> Option<Shown>
    requires step { length marks.now.items ≡ length rob.now.entries }
    ensures { result ≡ resolved_shown rob.now.entries marks.now.items }
{
    for i in 0..rob.len() {
        let entry = rob.lend(i);
        if is_exposed(entry, marks, i) {
            return Some(shown_by(entry));
        }
    }
    None
}
