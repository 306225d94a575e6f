//! The marks of an entry's sources: those of a writer that is in flight, else the retired ones.
ghost use Rattle.std.specs.Prelude.{◌≡◌, Some};
ghost use Rattle.std.specs.Option.{option_map};
ghost use Rattle.window_model.specs.Serials.{Rise};
ghost use Rattle.entry_marks.specs.Beside.{mark_of, marks_by, result_or};

use crate::walk::Walk;
use circular_buffer::HeapCircularBuffer;
use mark_words::UNMARKED;
use rob_ring::{RobRing, sources_at};
use rv_types::{REGISTERS, Reg, reads_of};
use secret_marks::{EntryMarks, WordMarks};
use window_model::Entry;

// The marks of the value of the entry with this serial, if it is in flight; else these.
fn marks_in_flight(
    rob: &RobRing,
    marks: &HeapCircularBuffer<EntryMarks>,
    serial: u64,
    retired: WordMarks,
) -> WordMarks
    requires rise { Rise rob.now.entries }
    ensures { result ≡ result_or (mark_of rob.now.entries marks.now.items (Some serial)) retired }
{
    let Some(found) = rob.find(serial) else {
        return retired;
    };
    match marks.get(found.position as usize) {
        Some(mark) => mark.result,
        None => retired,
    }
}

// The marks of an entry's first and second source, none where it has no such source.
#[derive(Clone, Copy, Debug, PartialEq, Eq)]
pub struct Operands {
    pub first: WordMarks,
    pub second: WordMarks,
}

impl<'a> Walk<'a> {
    ghost use Rattle.std.specs.Prelude.{◌≡◌};
    ghost use Rattle.std.specs.Option.{option_map};
    ghost use Rattle.window_model.specs.Order.{sources};
    ghost use Rattle.window_model.specs.Serials.{Rise};
    ghost use Rattle.secret_marks.specs.Marks.{first_marks, second_marks};
    ghost use Rattle.entry_marks.specs.Beside.{marks_by};
    ghost use Rattle.entry_marks.specs.Walk.{WalkInvariant, StandsAt, entries_at, marks_at};

    // The marks of a source whose writer has this serial.
    #[inline(always)]
    fn source_marks(&self, source: Option<Reg>, writer: Option<u64>) -> WordMarks
        requires rise { Rise self.now.rob.now.entries }
        ensures { result ≡ marks_by self.now.regs.now self.now.rob.now.entries self.now.marks.now.items
            (option_map (λ r. r.number) source) writer }
    {
        let Some(register) = source else {
            return UNMARKED;
        };
        let retired = self.regs[register.number as usize];
        match writer {
            Some(serial) => marks_in_flight(self.rob, self.marks, serial, retired),
            None => retired,
        }
    }

    /// The marks of the first source of the entry at a position, none where it has no source.
    pub fn first_source(&self, i: u32, entry: &Entry) -> WordMarks
        requires stands { WalkInvariant self.now }
        requires at { StandsAt self.now i entry.now }
        ensures { result ≡ first_marks self.now.regs.now (entries_at self.now i) (marks_at self.now i)
            (sources entry.now) }
    {
        let [first, _] = reads_of(&entry.item.instr);
        self.source_marks(first, sources_at(self.sources, i).writers[0])
    }

    /// The marks of the second source of the entry at a position, none where it has none.
    pub fn second_source(&self, i: u32, entry: &Entry) -> WordMarks
        requires stands { WalkInvariant self.now }
        requires at { StandsAt self.now i entry.now }
        ensures { result ≡ second_marks self.now.regs.now (entries_at self.now i) (marks_at self.now i)
            (sources entry.now) }
    {
        let [_, second] = reads_of(&entry.item.instr);
        self.source_marks(second, sources_at(self.sources, i).writers[1])
    }

    /// The marks of the sources of the entry at a position.
    #[inline(always)]
    pub fn operands(&self, i: u32, entry: &Entry) -> Operands
        requires stands { WalkInvariant self.now }
        requires at { StandsAt self.now i entry.now }
        ensures first { result.first ≡ first_marks self.now.regs.now (entries_at self.now i) (marks_at self.now i)
            (sources entry.now) }
        ensures second { result.second ≡ second_marks self.now.regs.now (entries_at self.now i)
            (marks_at self.now i) (sources entry.now) }
    {
        let [first, second] = reads_of(&entry.item.instr);
        let writers = sources_at(self.sources, i).writers;
        Operands {
            first: self.source_marks(first, writers[0]),
            second: self.source_marks(second, writers[1]),
        }
    }
}
