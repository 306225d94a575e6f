//! The marks that an entry gets as it issues, or as a store's data part does.
ghost use Rattle.std.specs.Prelude.{◌≡◌};
ghost use Rattle.secret_marks.specs.Marks.{is_at};

use crate::walk::Walk;
use mark_words::{UNMARKED, any_byte, either, result_marks};
use secret_marks::{EntryMarks, WordMarks};
use window_model::Entry;

// Whether a part issued in this cycle.
fn is_at(cycle: u64, at: Option<u64>) -> bool
    ensures { result ≡ is_at cycle at }
{
    match at {
        Some(at) => at == cycle,
        None => false,
    }
}

impl<'a> Walk<'a> {
    ghost use Rattle.std.specs.Prelude.{◌≡◌, ◌+◌, ◌&&◌, List, if◌then◌else◌};
    ghost use Rattle.window_model.specs.Order.{sources};
    ghost use Rattle.secret_marks.specs.Words.{either};
    ghost use Rattle.secret_marks.specs.declared.EntryMarks.{EntryMarks};
    ghost use Rattle.secret_marks.specs.Marks.{goes_mark, is_at, issued_marks, second_marks, value_marks};
    ghost use Rattle.entry_marks.specs.Walk.{WalkInvariant, StandsAt, entries_at, marks_at, with_window};

    // The marks of the value of the entry at a position.
    fn value_marks(&self, i: u32, entry: &Entry) -> WordMarks
        requires stands { WalkInvariant self.now }
        requires at { StandsAt self.now i entry.now }
        ensures { (window : List EntryMarks) → result ≡ value_marks entry.now.item.kind self.now.cycle self.now.base
            (with_window self.now window) (entries_at self.now i) (marks_at self.now i) entry.now }
    {
        if !entry.is_load() {
            let operands = self.operands(i, entry);
            return result_marks(&entry.item.instr, operands.first, operands.second);
        }
        if entry.is_faulty() {
            return UNMARKED;
        }
        self.loaded(entry)
    }

    // Whether the entry at a position is a branch or JALR that goes by something marked.
    fn goes_mark(&self, i: u32, entry: &Entry) -> bool
        requires stands { WalkInvariant self.now }
        requires at { StandsAt self.now i entry.now }
        ensures { (window : List EntryMarks) → result ≡ goes_mark (with_window self.now window)
            (entries_at self.now i) (marks_at self.now i) entry.now }
    {
        if !entry.is_control() {
            return false;
        }
        let operands = self.operands(i, entry);
        any_byte(operands.first) || any_byte(operands.second)
    }

    // The marks of the value of the entry at a position: those of its operands or loaded bytes, where it issued in
    // this cycle, beside those that it has.
    fn result_after(&self, i: u32, entry: &Entry, own: WordMarks) -> WordMarks
        requires stands { WalkInvariant self.now }
        requires at { StandsAt self.now i entry.now }
        ensures { (window : List EntryMarks) → result ≡ (if is_at self.now.cycle entry.now.issued
            then either own (value_marks entry.now.item.kind self.now.cycle self.now.base
            (with_window self.now window) (entries_at self.now i) (marks_at self.now i) entry.now)
            else own) }
    {
        if !is_at(self.cycle as u64, entry.issued) {
            return own;
        }
        either(own, self.value_marks(i, entry))
    }

    // Whether the entry at a position issued in this cycle, and is a branch or JALR that goes by something marked.
    fn goes_after(&self, i: u32, entry: &Entry) -> bool
        requires stands { WalkInvariant self.now }
        requires at { StandsAt self.now i entry.now }
        ensures { (window : List EntryMarks) → result ≡ (is_at self.now.cycle entry.now.issued
            && goes_mark (with_window self.now window) (entries_at self.now i) (marks_at self.now i) entry.now) }
    {
        if !is_at(self.cycle as u64, entry.issued) {
            return false;
        }
        self.goes_mark(i, entry)
    }

    // The marks of what the entry at a position stores: those of its second source, where its data part issued in
    // this cycle, beside those that it has.
    fn stored_after(&self, i: u32, entry: &Entry, own: WordMarks) -> WordMarks
        requires stands { WalkInvariant self.now }
        requires at { StandsAt self.now i entry.now }
        ensures { result ≡ (if is_at (self.now.cycle + 1) entry.now.data_due
            then either own (second_marks self.now.regs.now (entries_at self.now i) (marks_at self.now i)
            (sources entry.now))
            else own) }
    {
        if !is_at(self.cycle as u64 + 1, entry.data_due) {
            return own;
        }
        either(own, self.second_source(i, entry))
    }

    /// The marks of the entry at a position, as Issue has left it, beside those that it has.
    pub fn issued_marks(&self, i: u32, entry: &Entry, own: EntryMarks) -> EntryMarks
        requires stands { WalkInvariant self.now }
        requires at { StandsAt self.now i entry.now }
        ensures { (window : List EntryMarks) → result ≡ issued_marks self.now.cycle self.now.base
            (with_window self.now window) (entries_at self.now i) (marks_at self.now i) entry.now own }
    {
        EntryMarks {
            result: self.result_after(i, entry, own.result),
            goes: own.goes || self.goes_after(i, entry),
            stored: self.stored_after(i, entry, own.stored),
        }
    }
}
