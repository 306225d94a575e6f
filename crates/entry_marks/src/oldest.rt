//! What is copied of the oldest entries before Retire, so that those that leave can move their marks after it.
ghost use Rattle.std.specs.Prelude.{◌≡◌};
ghost use Rattle.rv_types.specs.Causes.{illegal};
ghost use Rattle.rv_types.specs.declared.Instr.TheVariants as instr;
ghost use Rattle.rv_types.specs.declared.Kind.TheVariants as kind;
ghost use Rattle.rv_types.specs.declared.Width.TheVariants as width;
ghost use Rattle.secret_marks.specs.Marks.{new_entry};

use arrayvec::ArrayVec;
use mark_words::UNMARKED;
use rv_types::{Cause, Instr, Kind, Width};
use secret_marks::EntryMarks;

/// How many entries retire in a cycle at most: the widest `core.retire_width`.
pub const LEAVING_MAX: usize = 4;

/// What of an entry moves marks as it retires.
#[derive(Clone, Copy, Debug, PartialEq, Eq)]
pub struct LeavingEntry {
    /// The kind of the entry.
    pub kind: Kind,
    /// The entry's instruction, which says which register it writes.
    pub instr: Instr,
    /// The address of the entry's access, if it is a load or store.
    pub addr: u32,
    /// How many bytes that access moves.
    pub width: Width,
    /// The marks of the entry.
    pub marks: EntryMarks,
}

impl Default for LeavingEntry {
    /// A stop without marks, to fill free places with.
    fn default() -> Self
        ensures { result ≡ record {
          kind = kind.Stop illegal;
          instr = instr.Illegal 0;
          addr = 0;
          width = width.B;
          marks = new_entry;
        } }
    {
        LeavingEntry {
            kind: Kind::Stop(Cause::illegal()),
            instr: Instr::Illegal(0),
            addr: 0,
            width: Width::B,
            marks: EntryMarks {
                result: UNMARKED,
                goes: false,
                stored: UNMARKED,
            },
        }
    }
}

/// The oldest entries, as many as may retire in a cycle, up to the first that isn't Done.
#[derive(Drop)]
pub struct Leaving {
    /// What is copied of each of the oldest entries, oldest first.
    pub entries: ArrayVec<LeavingEntry, LEAVING_MAX>,
}
