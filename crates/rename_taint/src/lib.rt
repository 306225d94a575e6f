//! Register renaming and taint: for each register the entry in flight that wrote it last, and one youngest root of
//! taint.
//!
//! A table holds the writes of the entries in flight by age (`docs/machine.md`, "Writers and roots"). Loads become
//! visible in order of age, so of a value's roots the youngest alone tells whether it is tainted. [`ByScan`] searches
//! the writes; [`ByTable`], which has an undo list, answers in constant time.
//!
//! Rules: `specs/Writes.antt`, what each call answers and leaves; `Table.antt`, of the table.
//!
//! Promises: what is answered for a register is what its last write says, among the writes that neither retired nor
//! were dropped.
//!
//! Clauses: `RenameTaint` (`new`, `source`, `root`, `write`, `retired`, `cut_back`), `roots_of`, `root_written`,
//! `later`.
#![tactic(auto)]

ghost use Rattle.std.specs.Prelude.{◌≡◌, ◌++◌, ◌∷◌, ◌<◌, ℕ, List, [], length, IfOk};
ghost use Rattle.std.specs.List.{All};
ghost use Rattle.rename_taint.specs.declared.Write.{Write};
ghost use Rattle.rename_taint.specs.Writes.{source_of, root_of, without_retired, before_serial};

use machine_desc::Desc;
use rv_types::{NoMemory, Reg};
use std::alloc::Global;

mod by_scan;
mod by_table;
mod roots;
mod slots;

pub use by_scan::ByScan;
pub use by_table::ByTable;
pub use roots::{later, root_at, root_written, roots_of};

/// A write of a register by an entry in flight.
#[derive(Clone, Copy, Debug, PartialEq, Eq)]
pub struct Write {
    /// The serial of the entry that writes.
    pub serial: u64,
    /// The number of the register.
    pub register: u8,
    /// The serial of the youngest root of the value, None where it has no root.
    pub root: Option<u64>,
}

/// Where a register's value stands.
#[derive(Clone, Copy, Debug, PartialEq, Eq)]
pub enum Source {
    /// The value stands in the retired registers.
    Committed,
    /// The value is that of the entry of this serial.
    Entry(u64),
}

/// The writes of the entries in flight, by age. No call but `new` takes memory.
pub trait RenameTaint: Sized {
    /// The writes that are held, oldest first.
    ghost writes: { Self → List Write };

    /// How many writes there is room for.
    ghost room: { Self → ℕ };

    /// No writes, with room for as many as the reorder buffer has entries. The one error is want of memory.
    fn new(alloc: Global, desc: &Desc) -> Result<Self, NoMemory>
        ensures empty { IfOk result (λ table. writes table ≡ []) }
        ensures room { IfOk result (λ table. room table ≡ desc.now.core_rob) };

    /// Where the register's value stands: with the entry that wrote it last, if one is in flight.
    fn source(&self, register: Reg) -> Source
        ensures { result ≡ source_of (writes self.now) register.number };

    /// The serial of the youngest root of the register's value. None for a retired value, and where it has no root.
    fn root(&self, register: Reg) -> Option<u64>
        ensures { result ≡ root_of (writes self.now) register.number };

    /// Adds a write, which is the youngest.
    fn write(&mut self, register: Reg, serial: u64, root: Option<u64>)
        requires room { length (writes self.old) < room self.old }
        requires youngest { All (λ w. w.serial < serial) (writes self.old) }
        ensures written { writes self.new
            ≡ writes self.old ++ record { serial = serial; register = register.number; root = root } ∷ [] }
        ensures same_room { room self.new ≡ room self.old };

    /// Lets go of the write with this serial and of all older ones, as the entry has retired. Changes nothing where no
    /// write with this serial is held.
    fn retired(&mut self, serial: u64)
        ensures left { writes self.new ≡ without_retired serial (writes self.old) }
        ensures same_room { room self.new ≡ room self.old };

    /// Takes back the writes from this serial on, as their entries are dropped: each register has the writer and the
    /// root that it had before them.
    fn cut_back(&mut self, first: u64)
        ensures left { writes self.new ≡ before_serial first (writes self.old) }
        ensures same_room { room self.new ≡ room self.old };
}
