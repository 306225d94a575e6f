//! The out-of-order machine: the types of what is in flight and of what happens in a cycle, and in `specs/` every
//! definition of the machine: its state, writers, taint and visibility, the seven phases, one cycle and whole runs.
//!
//! The code that runs the machine isn't part of this crate. Here stand what any such code has to be (`Clocked`), what
//! an entry is and comes to, where one with a serial stands, and general lemmas.
//!
//! Rules: `specs/Sets.antt`, `State.antt`, `Order.antt`, `Serials.antt`, `Taint.antt`, `Ready.antt`,
//! `SecondLevel.antt`, `History.antt`, `Fill.antt`, `Resolve.antt`, `Dependence.antt`, `Clear.antt`, `Retire.antt`,
//! `Around.antt`, `Access.antt`, `MayIssue.antt`, `Ports.antt`, `Issue.antt`, `Rename.antt`, `Fetch.antt`, `Row.antt`,
//! `Cycle.antt`, `Path.antt`; `docs/machine.md`.
//!
//! Promises: a row is a list of at most 256 events; what an entry is and comes to is what the definitions say of it;
//! the position of a serial is the number of entries below it. The machine itself is a definition. What a core is that
//! is this machine: one call leaves the whole state, the row and the piece of output of one cycle, and what retires is
//! what the instruction set does.
//!
//! Clauses: `Row`, `empty_row`, `Entry::is_done` and its other calls, `line_of`, `lines_of`, `position_of`, `Window`,
//! `Clocked`.
#![tactic(auto)]

ghost use Rattle.std.specs.Prelude.{◌≡◌, ◌<◌, List, length, slice_get, Some};
ghost use Rattle.window_model.specs.declared.Entry.{Entry};

use rv_types::{Cause, Instr, Kind};

mod blank;
mod clocked;
mod entries;
mod line;
mod lookup;
mod position;
mod row;
mod table;

pub use clocked::Clocked;
pub use line::{line_of, lines_of, upper_line};
pub use lookup::{Access, Line, Lines, Request};
pub use position::position_of;
pub use row::{ROW_MAX, Row, empty_row};
pub use table::index;

/// The most addresses that a return stack may hold.
pub const RETURNS_MAX: usize = 16;

/// Global history and return stack (`docs/machine.md`, "History and return stack"). The stack is the first `depth` of
/// the addresses, youngest first; the others are 0.
#[derive(Clone, Copy, Debug, PartialEq, Eq)]
pub struct Checkpoint {
    /// The directions of the last branches, of the youngest in the lowest bit.
    pub history: u32,
    /// How many addresses are on the stack.
    pub depth: u32,
    /// The addresses to which returns go, youngest first.
    pub addresses: [u32; RETURNS_MAX],
}

/// A fetched instruction (`docs/machine.md`, "State").
#[derive(Clone, Copy, Debug, PartialEq, Eq)]
pub struct Item {
    /// The address of the instruction.
    pub pc: u32,
    /// The instruction that stands there; outside code an illegal one.
    pub instr: Instr,
    /// The kind by which the pipeline treats it.
    pub kind: Kind,
    /// The address from which fetching went on. Only a stop has none.
    pub predicted: Option<u32>,
    /// History and stack before it.
    pub checkpoint: Checkpoint,
}

/// How far an instruction in flight is.
#[derive(Clone, Copy, Debug, PartialEq, Eq)]
pub enum Progress {
    /// Not issued: operands, a port, or what its kind asks for besides are missing. A store stays so until both its
    /// parts have issued.
    Waiting,
    /// Executing, and Done in the cycle of this number.
    Busy(u64),
    /// Executed: the result is there.
    Done,
}

/// What an instruction that has issued comes to (`docs/machine.md`, "Entries").
#[derive(Clone, Copy, Debug, PartialEq, Eq)]
pub struct Outcome {
    /// The value for its register; of a branch 1 where it is taken and 0 where it isn't; else 0.
    pub value: u32,
    /// The address of the instruction that follows.
    pub next: u32,
    /// The address of a load or store; else 0.
    pub addr: u32,
    /// The value that a store writes; else 0.
    pub stored: u32,
    /// Why it traps once it is the oldest, if it does.
    pub fault: Option<Cause>,
}

/// An instruction in flight (`docs/machine.md`, "Entries").
#[derive(Clone, Copy, Debug, PartialEq, Eq)]
pub struct Entry {
    /// The number in the order of renaming, never used again.
    pub serial: u64,
    /// The item that was fetched.
    pub item: Item,
    /// How far the instruction is.
    pub state: Progress,
    /// What it comes to: there from the cycle in which it issues, of a store from the first of its two parts.
    pub outcome: Option<Outcome>,
    /// A branch or JALR that has taken effect.
    pub resolved: bool,
    /// The cycle in which it issued. Of a store none is kept: each of its parts has its own.
    pub issued: Option<u64>,
    /// The cycle from which on a store's address is known: there once its address part has issued.
    pub addr_due: Option<u64>,
    /// The cycle from which on a store's data is known: there once its data part has issued.
    pub data_due: Option<u64>,
    /// No store, or one whose address no younger load has to be asked about any more.
    pub cleared: bool,
}

/// How a branch or JALR went.
#[derive(Clone, Copy, Debug, PartialEq, Eq)]
pub enum Way {
    /// A branch that is taken.
    Taken,
    /// A branch that is not taken.
    NotTaken,
    /// A JALR, which always jumps.
    Jump,
}

/// Where a line was found that a load asked for, or that is prefetched.
#[derive(Clone, Copy, Debug, PartialEq, Eq)]
pub enum Look {
    /// The cache has the line.
    Hit,
    /// Not its line, and no level has it: a miss register was taken for it.
    Miss,
    /// Not its line, but a miss register that waits for it.
    Join,
    /// Not its line, but the second level has it: a miss register was taken for it.
    Second,
}

/// What happened in a cycle (`docs/machine.md`, "Events"). A line is named by its first address, an entry by its
/// serial.
#[derive(Clone, Copy, Debug, PartialEq, Eq)]
pub enum Event {
    /// A line entered the cache.
    Fill(u32),
    /// An entry has its result.
    Done(u64),
    /// A branch or JALR was resolved.
    Res(u64, Way),
    /// A counter of the branch predictor now has this value.
    Bp(u32, u8),
    /// An entry of the table of targets now has this target.
    Bt(u32, u32),
    /// Entries and fetched items were dropped, as many together as this.
    Sq(u32),
    /// The store of this serial was cleared.
    Clr(u64),
    /// A load had passed that store wrongly, and was dropped.
    Vio(u64),
    /// A bit of dependence now has this value.
    Dp(u32, u8),
    /// The entry of this serial retired.
    Ret(u64),
    /// A store wrote memory; a line of it, and whether the cache had it.
    St(u64, u32, bool),
    /// A call took effect and put out so many bytes.
    Call(u64, u32),
    /// An entry issued to an arithmetic unit.
    Alu(u64),
    /// An entry issued to the multiplier.
    Mul(u64),
    /// An entry issued to the divider, for so many cycles.
    Div(u64, u8),
    /// A store's address part issued, in version 1 both parts.
    Agu(u64),
    /// A store's data part issued.
    Std(u64),
    /// A load issued; a line of it, and where that was found.
    Ld(u64, u32, Look),
    /// A load issued whose bytes all come from older stores.
    LdForward(u64),
    /// A load issued that faults.
    LdFault(u64),
    /// The line behind a load's is prefetched; where it was found.
    Pf(u32, Look),
    /// The item of this address was renamed, with this serial.
    Ren(u64, u32),
    /// An instruction was fetched from this address.
    Fet(u32),
}

impl Default for Event {
    ghost use Rattle.window_model.specs.declared.Event.TheVariants.{Fill};

    /// An event to fill free places with.
    fn default() -> Self
        ensures { result ≡ Fill 0 }
    {
        Event::Fill(0)
    }
}

/// A miss register that is taken.
#[derive(Clone, Copy, Debug, PartialEq, Eq)]
pub struct Miss {
    /// The line that it waits for.
    pub line: u32,
    /// The cycle in which the line enters the cache and the register is free again.
    pub due: u64,
    /// Whether the line comes from memory, and not from the second level.
    pub from_memory: bool,
}

/// An entry of the table of targets.
#[derive(Clone, Copy, Debug, PartialEq, Eq)]
pub struct Target {
    /// The address of the JALR.
    pub pc: u32,
    /// The address to which the JALR went last.
    pub target: u32,
}

/// Until when the divider is taken, and by which division.
#[derive(Clone, Copy, Debug, PartialEq, Eq)]
pub struct Divider {
    /// The cycle from which on it is free.
    pub free_from: u64,
    /// The serial of the division that used it last, unless that was dropped.
    pub user: Option<u64>,
}

/// The entries in flight, oldest first, as one list.
pub trait Window {
    /// The entries in flight, oldest first.
    ghost entries: { Self → List Entry };

    /// How many entries are in flight.
    fn len(&self) -> u32
        ensures { result ≡ length (entries self.now) };

    /// Lends the entry at a position, counted from the oldest.
    fn lend(&self, i: u32) -> &Entry
        requires { i < length (entries self.now) }
        ensures { slice_get (entries self.now) i ≡ Some result.now };
}
