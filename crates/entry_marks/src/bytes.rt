//! The marks of the bytes that a load reads: of the store that gives each, as the queue of stores names it, else of
//! memory's.
use crate::walk::Walk;
use mark_words::{every_byte, lower_half, lowest_byte, mark_at, signed_half};
use rv_types::Op;
use secret_marks::WordMarks;
use window_model::Entry;

impl<'a> Walk<'a> {
    ghost use Rattle.std.specs.Prelude.{◌≡◌, ◌-◌, ℕ, slice_index_or, false};
    ghost use Rattle.rv_types.specs.declared.Op.TheVariants.{Lw};
    ghost use Rattle.secret_marks.specs.Marks.{byte_mark};
    ghost use Rattle.secret_marks.specs.Results.{loaded_marks};
    ghost use Rattle.window_model.specs.Retire.{addr_of, op_of};
    ghost use Rattle.window_model.specs.Serials.{Rise};
    ghost use Rattle.entry_marks.specs.Beside.{given_by};
    ghost use Rattle.entry_marks.specs.Walk.{WalkInvariant, StandsAt, entries_at, marks_at};

    // The mark of a byte of memory, as retired.
    fn memory_mark(&self, a: u64) -> bool
        ensures { result ≡ slice_index_or self.now.bytes.now.items (a - self.now.base) false }
    {
        match self.bytes.get(a.saturating_sub(self.base as u64) as usize) {
            Some(mark) => *mark,
            None => false,
        }
    }

    // The mark of a byte by the serial of the store that gives it, if that is in flight, or memory's where none does.
    fn given_by(&self, giver: Option<u64>, a: u64) -> bool
        requires rise { Rise self.now.rob.now.entries }
        ensures { result ≡ given_by self.now.rob.now.entries self.now.marks.now.items
            (slice_index_or self.now.bytes.now.items (a - self.now.base) false) a giver }
    {
        let Some(serial) = giver else {
            return self.memory_mark(a);
        };
        let Some(found) = self.rob.find(serial) else {
            return false;
        };
        match self.marks.get(found.position as usize) {
            Some(mark) => mark_at(mark.stored, a.saturating_sub(found.entry.addr() as u64)),
            None => false,
        }
    }

    // The mark of a byte that an entry reads.
    fn byte_mark(&self, entry: &Entry, a: u64) -> bool
        requires stands { WalkInvariant self.now }
        ensures { (i : ℕ) → StandsAt self.now i entry.now → result ≡ byte_mark self.now.cycle self.now.base
            self.now.bytes.now.items (entries_at self.now i) (marks_at self.now i) a }
    {
        self.given_by(self.lsq.giver(entry.serial, a, self.cycle as u64), a)
    }

    // The marks of the bytes of the word at this address, as an entry reads them.
    fn word_marks(&self, entry: &Entry, addr: u32) -> WordMarks
        requires stands { WalkInvariant self.now }
        ensures { (i : ℕ) → StandsAt self.now i entry.now → result ≡ loaded_marks Lw (byte_mark self.now.cycle
            self.now.base self.now.bytes.now.items (entries_at self.now i) (marks_at self.now i)) addr }
    {
        let a = addr as u64;
        WordMarks {
            byte0: self.byte_mark(entry, a),
            byte1: self.byte_mark(entry, a + 1),
            byte2: self.byte_mark(entry, a + 2),
            byte3: self.byte_mark(entry, a + 3),
        }
    }

    /// The marks of what a load loads, where it goes without fault.
    pub(crate) fn loaded(&self, entry: &Entry) -> WordMarks
        requires stands { WalkInvariant self.now }
        ensures { (i : ℕ) → StandsAt self.now i entry.now → result ≡ loaded_marks (op_of entry.now.item.instr)
            (byte_mark self.now.cycle self.now.base self.now.bytes.now.items (entries_at self.now i)
            (marks_at self.now i)) (addr_of entry.now.outcome) }
    {
        let addr = entry.addr();
        match entry.op() {
            Op::Lb => every_byte(self.byte_mark(entry, addr as u64)),
            Op::Lbu => lowest_byte(self.byte_mark(entry, addr as u64)),
            Op::Lh => signed_half(self.word_marks(entry, addr)),
            Op::Lhu => lower_half(self.word_marks(entry, addr)),
            _ => self.word_marks(entry, addr),
        }
    }
}
