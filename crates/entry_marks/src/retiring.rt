//! Retire moves marks: each entry that leaves hands those of its value to its register, and a store those of what it
//! stores to memory.
ghost use Rattle.std.specs.Prelude.{◌≡◌, ◌≤◌, List, drop, length};
ghost use Rattle.circular_buffer.specs.Buffer.{buffer};
ghost use Rattle.window_model.specs.declared.Entry.{Entry};
ghost use Rattle.secret_marks.specs.declared.EntryMarks.{EntryMarks};
ghost use Rattle.secret_marks.specs.Marks.{leaves_as, marks_after_leaving};
ghost use Rattle.entry_marks.specs.Oldest.{Inside, InsideEach, IsCopied, IsCopiedFrom};
ghost use Rattle.entry_marks.specs.Walk.{marks_of, marks_with};

use crate::beside::marks_at;
use crate::marks::Marks;
use crate::oldest::{LEAVING_MAX, Leaving, LeavingEntry};
use arrayvec::ArrayVec;
use circular_buffer::HeapCircularBuffer;
use mark_words::{UNMARKED, write_memory, write_register};
use rob_ring::RobRing;
use rv_types::Kind;
use secret_marks::EntryMarks;
use window_model::Entry;

/// Copies what of the oldest entries moves marks, before Retire: of as many as may retire in a cycle, up to the first
/// that isn't Done, since Done entries alone retire.
pub fn leaving(rob: &RobRing, marks: &HeapCircularBuffer<EntryMarks>) -> Leaving
    requires step { length marks.now.items ≡ length rob.now.entries }
    ensures { IsCopiedFrom rob.now.entries marks.now.items result.entries.items }
{
    let mut entries = ArrayVec::new();
    for i in 0..rob.len().min(LEAVING_MAX as u32) {
        let entry = rob.lend(i);
        if !entry.is_done() {
            return Leaving { entries };
        }
        entries.push(copy_of(entry, marks_at(marks, i)));
    }
    Leaving { entries }
}

// Copies what of an entry with these marks moves marks as it retires.
fn copy_of(entry: &Entry, marks: &EntryMarks) -> LeavingEntry
    ensures { IsCopied entry.now marks.now result }
{
    LeavingEntry {
        kind: entry.item.kind,
        instr: entry.item.instr,
        addr: entry.addr(),
        width: entry.width(),
        marks: *marks,
    }
}

/// Moves the marks of the copied entries that have retired, the `count` oldest, to registers and memory, oldest first;
/// memory's first byte has the address `base`. It asks that the bytes of each store among them have their marks there.
pub fn leave(marks: &mut Marks, leaving: &Leaving, base: u32, count: u32)
    requires copied { count ≤ length leaving.now.entries.items }
    requires inside { InsideEach base (length marks.old.bytes.items) count leaving.now.entries.items }
    ensures marks { (window : List Entry) → IsCopiedFrom window marks.old.window.items leaving.now.entries.items
        → marks_of marks.new ≡ marks_after_leaving base count window (marks_of marks.old) marks.old.window.items }
    ensures window { marks.new.window ≡ buffer (drop count marks.old.window.items) marks.old.window.capacity }
    ensures memory { length marks.new.bytes.items ≡ length marks.old.bytes.items }
{
    let entries = leaving.entries.as_slice();
    for k in 0..count {
        move_marks(marks, &entries[k as usize], base);
    }
    let stay = marks.window.len().saturating_sub(count as usize);
    marks.window.truncate_front(stay);
}

// Moves the marks of an entry that has retired to its register and to memory.
fn move_marks(marks: &mut Marks, entry: &LeavingEntry, base: u32)
    requires inside { Inside base (length marks.old.bytes.items) entry.now }
    ensures marks { (e : Entry) (mark : EntryMarks) (before rest : List EntryMarks) → IsCopied e mark entry.now
        → marks_with marks.new rest ≡ leaves_as e.item.kind base e mark rest (marks_with marks.old before) }
    ensures window { marks.new.window ≡ marks.old.window }
    ensures memory { length marks.new.bytes.items ≡ length marks.old.bytes.items }
{
    match entry.kind {
        Kind::Call => marks.regs[10] = UNMARKED,
        Kind::Store => {
            write_register(&mut marks.regs, &entry.instr, entry.marks.result);
            let at = entry.addr.saturating_sub(base) as usize;
            write_memory(
                &mut marks.bytes,
                at,
                entry.width.bytes(),
                entry.marks.stored,
            );
        }
        _ => write_register(&mut marks.regs, &entry.instr, entry.marks.result),
    }
}
