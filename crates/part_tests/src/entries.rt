//! Entries of which a test says only what it asks about.
ghost use Rattle.std.specs.Prelude.{◌≡◌};
ghost use Rattle.rv_types.specs.Causes.{illegal};
ghost use Rattle.rv_types.specs.declared.Kind.TheVariants as kind;

use rv_types::{Cause, Instr, Op, Reg, kind_of};
use window_model::{Entry, Outcome, Progress};

/// A BEQ, JALR, SW, LW or ADD that reads x1.
#[derive(Clone, Copy)]
pub enum Word {
    /// The BEQ.
    Branch,
    /// The JALR.
    Jump,
    /// The SW.
    Store,
    /// The LW.
    Load,
    /// The ADD.
    Sum,
}

/// The instruction of a word.
pub fn instr_of(word: Word) -> Instr {
    let rs1 = Reg { number: 1 };
    match word {
        Word::Branch => Instr::Branch {
            op: Op::Beq,
            rs1,
            rs2: rs1,
            imm: 16,
        },
        Word::Jump => Instr::Jalr {
            rd: rs1,
            rs1,
            imm: 0,
        },
        Word::Store => Instr::Store {
            op: Op::Sw,
            rs1,
            rs2: rs1,
            imm: 0,
        },
        Word::Load => Instr::Load {
            op: Op::Lw,
            rd: rs1,
            rs1,
            imm: 0,
        },
        Word::Sum => Instr::OpReg {
            op: Op::Add,
            rd: rs1,
            rs1,
            rs2: rs1,
        },
    }
}

/// An entry with this serial that is Done, of an instruction that can only trap.
pub fn entry(serial: u64) -> Entry
    ensures serial { result.serial ≡ serial }
    ensures stops { result.item.kind ≡ kind.Stop illegal }
{
    Entry {
        serial,
        ..Entry::default()
    }
}

/// One with this serial at 0x10004, predicted to go on behind it, in this state.
pub fn entry_of(serial: u64, word: Word, state: Progress) -> Entry
    ensures { result.serial ≡ serial }
{
    let instr = instr_of(word);
    let mut entry = entry(serial);
    entry.item.pc = 0x10004;
    entry.item.kind = kind_of(&instr);
    entry.item.instr = instr;
    entry.item.predicted = Some(0x10008);
    entry.state = state;
    entry
}

/// What it comes to: a value, a next address and a fault.
pub fn with_outcome(entry: Entry, value: u32, next: u32, fault: Option<Cause>) -> Entry
    ensures { result.serial ≡ entry.serial }
{
    let outcome = Outcome {
        value,
        next,
        addr: 0,
        stored: 0,
        fault,
    };
    Entry {
        outcome: Some(outcome),
        ..entry
    }
}
