//! The types of the instruction set RV32IM, and in `specs/` every definition of it: words, values, decoding, kinds,
//! memory, one step, whole runs, and what a run reads.
//!
//! The rules are those of the RISC-V unprivileged manual (chapters RV32I and M); the system calls are this project's
//! own.
//!
//! Rules: `specs/Word.antt`, `Value.antt`, `Causes.antt`, `Decode.antt`, `Regs.antt`, `Kind.antt`, `Memory.antt`,
//! `Isa.antt`, `Path.antt`; `docs/instruction-set.md`.
//!
//! Promises: kinds, sources, destination and width of an instruction are the tables.
//!
//! Clauses: `kind_of`, `reads_of`, `writes_of`, `unless_zero`, `width_of`, `Width::bytes`.
#![tactic(auto)]

ghost use Rattle.std.specs.Prelude.{◌<◌};

mod causes;
mod kinds;
mod piece;

pub use kinds::{kind_of, reads_of, unless_zero, width_of, writes_of};
pub use piece::{PIECE_MAX, Piece};
use std::alloc::{AllocError, AllocFailed};
use thiserror::Error;

/// The number of registers, x0 among them.
pub const REGISTERS: usize = 32;

/// The number of the stack pointer, x2.
pub const SP: usize = 2;

/// How many bytes below memory's end the stack pointer begins.
pub const STACK_GAP: u64 = 16;

/// There was no memory: the one answer that has no stated cause.
#[derive(Clone, Copy, Debug, PartialEq, Eq, Error)]
#[error("no memory is left")]
pub struct NoMemory;

impl From<AllocError> for NoMemory {
    fn from(_: AllocError) -> Self {
        NoMemory
    }
}

impl<T: Drop> From<AllocFailed<T>> for NoMemory {
    fn from(_: AllocFailed<T>) -> Self {
        NoMemory
    }
}

/// A register, by its number from 0 to 31. Register 0 always holds 0.
#[derive(Clone, Copy, Debug, PartialEq, Eq)]
pub struct Reg {
    pub number: u8,
    ghost in_range: { number < 32 },
}

/// Why an instruction traps, by its number from 0 to 7 (`docs/instruction-set.md`, "Traps").
#[derive(Clone, Copy, Debug, PartialEq, Eq, Error)]
#[error("trap {number}")]
pub struct Cause {
    pub number: u8,
    ghost in_range: { number < 8 },
}

/// How much an access of memory moves.
#[derive(Clone, Copy, Debug, PartialEq, Eq)]
pub enum Width {
    /// One byte.
    B,
    /// Two bytes, at an even address.
    H,
    /// Four bytes, at a multiple of 4.
    W,
}

impl Width {
    ghost use Rattle.std.specs.Prelude.{◌≡◌, ◌≤◌};
    ghost use Rattle.rv_types.specs.Value.{bytes_in};

    /// How many bytes an access of this width moves: 1, 2 or 4.
    #[inline]
    pub fn bytes(self) -> u32
        ensures value { result ≡ bytes_in self }
        ensures some { 0 < result }
        ensures few { result ≤ 4 }
    {
        match self {
            Width::B => 1,
            Width::H => 2,
            Width::W => 4,
        }
    }
}

/// What a branch tests, a load or store moves, or an arithmetic instruction computes.
#[derive(Clone, Copy, Debug, PartialEq, Eq)]
pub enum Op {
    Beq,
    Bne,
    Blt,
    Bge,
    Bltu,
    Bgeu,
    Lb,
    Lh,
    Lw,
    Lbu,
    Lhu,
    Sb,
    Sh,
    Sw,
    Add,
    Sub,
    Sll,
    Slt,
    Sltu,
    Xor,
    Srl,
    Sra,
    Or,
    And,
    Mul,
    Mulh,
    Mulhsu,
    Mulhu,
    Div,
    Divu,
    Rem,
    Remu,
}

/// An instruction with its fields. An immediate is sign-extended; a shift's amount is its immediate, 0 to 31.
#[derive(Clone, Copy, Debug, PartialEq, Eq)]
pub enum Instr {
    Lui {
        rd: Reg,
        imm: i32,
    },
    Auipc {
        rd: Reg,
        imm: i32,
    },
    Jal {
        rd: Reg,
        imm: i32,
    },
    Jalr {
        rd: Reg,
        rs1: Reg,
        imm: i32,
    },
    Branch {
        op: Op,
        rs1: Reg,
        rs2: Reg,
        imm: i32,
    },
    Load {
        op: Op,
        rd: Reg,
        rs1: Reg,
        imm: i32,
    },
    Store {
        op: Op,
        rs1: Reg,
        rs2: Reg,
        imm: i32,
    },
    OpImm {
        op: Op,
        rd: Reg,
        rs1: Reg,
        imm: i32,
    },
    OpReg {
        op: Op,
        rd: Reg,
        rs1: Reg,
        rs2: Reg,
    },
    /// A FENCE, with the whole word that encodes it.
    Fence(u32),
    Ecall,
    Ebreak,
    /// A word that encodes no instruction.
    Illegal(u32),
}

/// How the pipeline treats an instruction.
#[derive(Clone, Copy, Debug, PartialEq, Eq)]
pub enum Kind {
    Alu,
    Mul,
    Div,
    Load,
    Store,
    Branch,
    Jalr,
    Jal,
    /// An ECALL.
    Call,
    /// What can only trap, with the cause.
    Stop(Cause),
}

/// How a run ends by itself.
#[derive(Clone, Copy, Debug, PartialEq, Eq)]
pub enum End {
    /// An exit call, with its value.
    Exit(u32),
    /// A trap, with its cause and the address of the instruction.
    Trap(Cause, u32),
}

/// What the last line of a report or a trace says.
#[derive(Clone, Copy, Debug, PartialEq, Eq)]
pub struct Ending {
    /// How the run ended, None where the budget was used up.
    pub end: Option<End>,
    /// The number of instructions that took effect. An exit call counts, a trap doesn't.
    pub retired: u64,
    /// The number of cycles, None for the instruction set alone.
    pub cycles: Option<u32>,
}
