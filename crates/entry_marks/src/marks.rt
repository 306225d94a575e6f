//! The marks beside the parts of a core.
ghost use Rattle.std.specs.Prelude.{◌≡◌, ◌+◌, length};
ghost use Rattle.circular_buffer.specs.Buffer.{buffer};
ghost use Rattle.std.specs.Prelude.{◌++◌, ◌-◌, ◌<◌, ◌≤◌, replicate, take};
ghost use Rattle.secret_marks.specs.Marks.{new_entry};

use circular_buffer::HeapCircularBuffer;
use mark_words::UNMARKED;
use rv_types::REGISTERS;
use secret_marks::{EntryMarks, WordMarks};

/// Marks of registers and memory, as retired, and of the entries in flight. They are written as what they stand beside.
#[derive(Drop)]
pub struct Marks {
    /// The marks of the registers, as retired.
    pub regs: [WordMarks; REGISTERS],
    /// The mark of every byte of memory, as retired.
    pub bytes: Vec<bool>,
    /// The marks of the entries in the reorder buffer, oldest first.
    pub window: HeapCircularBuffer<EntryMarks>,
}

/// Drops the marks of the youngest entries, so that `len` are left: those of the entries that are left.
pub fn cut(window: &mut HeapCircularBuffer<EntryMarks>, len: u32)
    ensures { window.new ≡ buffer (take len window.old.items) window.old.capacity }
{
    window.truncate_back(len as usize);
}

/// Adds marks for entries that have come, so that there are `len`: a new entry is unmarked.
pub fn extend(window: &mut HeapCircularBuffer<EntryMarks>, len: u32)
    requires room { len ≤ window.old.capacity }
    ensures { window.new ≡ buffer (window.old.items ++ replicate (len - length window.old.items) new_entry)
        window.old.capacity }
{
    for _k in window.len()..len as usize {
        let _ = window.try_push_back(EntryMarks {
            result: UNMARKED,
            goes: false,
            stored: UNMARKED,
        });
    }
}
