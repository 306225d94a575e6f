//! What one entry is and comes to (`docs/machine.md`, "Entries", "Safe and visible", "Resolve", "Retire").
use crate::{Entry, Progress};
use rv_types::{Cause, Instr, Kind, Op, Width, width_of};

impl Entry {
    ghost use Rattle.std.specs.Prelude.{◌≡◌, ◌≤◌, ◌<◌};
    ghost use Rattle.rv_types.specs.Value.{bytes_in};
    ghost use Rattle.window_model.specs.Order.{is_done, is_load, is_store, is_control, is_faulty, fault_of, value_of};
    ghost use Rattle.window_model.specs.Taint.{safe, settled};
    ghost use Rattle.window_model.specs.Resolve.{is_taken, next_of};
    ghost use Rattle.window_model.specs.Retire.{may_leave, trap_of, addr_of, stored_of, op_of, byte_count};

    /// Whether the entry is Done.
    pub fn is_done(&self) -> bool
        ensures { result ≡ is_done self.now.state }
    {
        self.state == Progress::Done
    }

    /// Whether the entry is a load.
    pub fn is_load(&self) -> bool
        ensures { result ≡ is_load self.now.item.kind }
    {
        self.item.kind == Kind::Load
    }

    /// Whether the entry is a store.
    pub fn is_store(&self) -> bool
        ensures { result ≡ is_store self.now.item.kind }
    {
        self.item.kind == Kind::Store
    }

    /// Whether the entry is a branch or JALR: what can be wrongly predicted.
    pub fn is_control(&self) -> bool
        ensures { result ≡ is_control self.now.item.kind }
    {
        match self.item.kind {
            Kind::Branch | Kind::Jalr => true,
            _ => false,
        }
    }

    /// The value for the entry's register, 0 where it has no outcome yet.
    pub fn value(&self) -> u32
        ensures { result ≡ value_of self.now.outcome }
    {
        match self.outcome {
            Some(outcome) => outcome.value,
            None => 0,
        }
    }

    /// Whether the entry, if it is a branch, is taken: its value says so.
    pub fn is_taken(&self) -> bool
        ensures { result ≡ is_taken self.now.outcome }
    {
        self.value() == 1
    }

    /// The address of the instruction that follows, 0 where the entry has no outcome yet.
    pub fn next(&self) -> u32
        ensures { result ≡ next_of self.now.outcome }
    {
        match self.outcome {
            Some(outcome) => outcome.next,
            None => 0,
        }
    }

    /// The address of a load or store, 0 where the entry has no outcome yet.
    pub fn addr(&self) -> u32
        ensures { result ≡ addr_of self.now.outcome }
    {
        match self.outcome {
            Some(outcome) => outcome.addr,
            None => 0,
        }
    }

    /// The value that a store writes, 0 where the entry has no outcome yet.
    pub fn stored(&self) -> u32
        ensures { result ≡ stored_of self.now.outcome }
    {
        match self.outcome {
            Some(outcome) => outcome.stored,
            None => 0,
        }
    }

    /// The fault of the entry's outcome. None where it has no fault, or no outcome yet.
    pub fn fault(&self) -> Option<Cause>
        ensures { result ≡ fault_of self.now.outcome }
    {
        match self.outcome {
            Some(outcome) => outcome.fault,
            None => None,
        }
    }

    /// Whether the entry's outcome has a fault, so that it traps if it becomes the oldest.
    pub fn is_faulty(&self) -> bool
        ensures { result ≡ is_faulty self.now }
    {
        self.fault().is_some()
    }

    /// The cause with which the entry ends the run once it is the oldest: that of a stop, or the fault of its outcome.
    /// None for an entry that doesn't end it.
    pub fn trap(&self) -> Option<Cause>
        ensures { result ≡ trap_of self.now }
    {
        match self.item.kind {
            Kind::Stop(cause) => Some(cause),
            _ => self.fault(),
        }
    }

    /// Whether the entry squashes nothing that comes after it (`docs/machine.md`, "Safe and visible").
    pub fn is_safe(&self) -> bool
        ensures { result ≡ safe self.now }
    {
        match self.item.kind {
            Kind::Load => self.is_done() && !self.is_faulty(),
            Kind::Store => self.is_done() && !self.is_faulty() && self.cleared,
            Kind::Branch | Kind::Jalr => self.resolved && !self.is_faulty(),
            Kind::Call | Kind::Stop(_) => false,
            _ => true,
        }
    }

    /// Whether the entry, if it is a branch or JALR, is resolved, and if it is a store, is cleared.
    pub fn is_settled(&self) -> bool
        ensures { result ≡ settled self.now }
    {
        match self.item.kind {
            Kind::Branch | Kind::Jalr => self.resolved,
            Kind::Store => self.cleared,
            _ => true,
        }
    }

    /// Whether the entry may leave the window once it is the oldest: it is Done, and resolved if it is a branch or
    /// JALR.
    pub fn may_leave(&self) -> bool
        ensures { result ≡ may_leave self.now }
    {
        self.is_done() && (!self.is_control() || self.resolved)
    }

    /// The operation of the entry's instruction. One that has none counts as SB.
    pub fn op(&self) -> Op
        ensures { result ≡ op_of self.now.item.instr }
    {
        match self.item.instr {
            Instr::Load { op, .. }
            | Instr::Store { op, .. }
            | Instr::Branch { op, .. }
            | Instr::OpImm { op, .. }
            | Instr::OpReg { op, .. } => op,
            _ => Op::Sb,
        }
    }

    /// How much the entry moves as a load or store.
    pub fn width(&self) -> Width
        ensures { bytes_in result ≡ byte_count self.now }
    {
        width_of(self.op())
    }

    /// How many bytes that is: 1, 2 or 4.
    pub fn bytes(&self) -> u32
        ensures value { result ≡ byte_count self.now }
        ensures some { 0 < result }
        ensures few { result ≤ 4 }
    {
        self.width().bytes()
    }
}
