//! An instruction as one level of operations: a variant for each form with each operation that it may have.
//!
//! `Instr` asks two questions of who executes it, which form and which operation of that form; an `Operation` asks one.
//! What each stands for is said in `specs/Operations.antt`.
ghost use Rattle.std.specs.Prelude.{◌≡◌};
ghost use Rattle.rv_types.specs.Decode.{decode};
ghost use Rattle.rv_types.specs.Kind.{kind_of};
ghost use Rattle.rv_decode.specs.Operations.{instr_of};

use crate::decoding::decode;
use rv_types::{Instr, Kind, Op, Reg, kind_of};
use std::fmt;

/// An operation with its registers and its immediate, in the order of the fields of `Instr`: rd, rs1, rs2, imm.
#[derive(Clone, Copy)]
pub enum Operation {
    Lui(Reg, i32),
    Auipc(Reg, i32),
    Jal(Reg, i32),
    Jalr(Reg, Reg, i32),
    Beq(Reg, Reg, i32),
    Bne(Reg, Reg, i32),
    Blt(Reg, Reg, i32),
    Bge(Reg, Reg, i32),
    Bltu(Reg, Reg, i32),
    Bgeu(Reg, Reg, i32),
    Lb(Reg, Reg, i32),
    Lh(Reg, Reg, i32),
    Lw(Reg, Reg, i32),
    Lbu(Reg, Reg, i32),
    Lhu(Reg, Reg, i32),
    Sb(Reg, Reg, i32),
    Sh(Reg, Reg, i32),
    Sw(Reg, Reg, i32),
    AddImm(Reg, Reg, i32),
    SllImm(Reg, Reg, i32),
    SltImm(Reg, Reg, i32),
    SltuImm(Reg, Reg, i32),
    XorImm(Reg, Reg, i32),
    SrlImm(Reg, Reg, i32),
    SraImm(Reg, Reg, i32),
    OrImm(Reg, Reg, i32),
    AndImm(Reg, Reg, i32),
    Add(Reg, Reg, Reg),
    Sub(Reg, Reg, Reg),
    Sll(Reg, Reg, Reg),
    Slt(Reg, Reg, Reg),
    Sltu(Reg, Reg, Reg),
    Xor(Reg, Reg, Reg),
    Srl(Reg, Reg, Reg),
    Sra(Reg, Reg, Reg),
    Or(Reg, Reg, Reg),
    And(Reg, Reg, Reg),
    Mul(Reg, Reg, Reg),
    Mulh(Reg, Reg, Reg),
    Mulhsu(Reg, Reg, Reg),
    Mulhu(Reg, Reg, Reg),
    Div(Reg, Reg, Reg),
    Divu(Reg, Reg, Reg),
    Rem(Reg, Reg, Reg),
    Remu(Reg, Reg, Reg),
    /// Any other instruction, which has to be looked at itself: FENCE, ECALL, EBREAK, and what encodes none.
    Other,
}

fn branch(op: Op, rs1: Reg, rs2: Reg, imm: i32) -> Operation
    ensures { instr_of result (Instr.Branch op rs1 rs2 imm) ≡ Instr.Branch op rs1 rs2 imm }
{
    match op {
        Op::Beq => Operation::Beq(rs1, rs2, imm),
        Op::Bne => Operation::Bne(rs1, rs2, imm),
        Op::Blt => Operation::Blt(rs1, rs2, imm),
        Op::Bge => Operation::Bge(rs1, rs2, imm),
        Op::Bltu => Operation::Bltu(rs1, rs2, imm),
        Op::Bgeu => Operation::Bgeu(rs1, rs2, imm),
        _ => Operation::Other,
    }
}

fn load(op: Op, rd: Reg, rs1: Reg, imm: i32) -> Operation
    ensures { instr_of result (Instr.Load op rd rs1 imm) ≡ Instr.Load op rd rs1 imm }
{
    match op {
        Op::Lb => Operation::Lb(rd, rs1, imm),
        Op::Lh => Operation::Lh(rd, rs1, imm),
        Op::Lw => Operation::Lw(rd, rs1, imm),
        Op::Lbu => Operation::Lbu(rd, rs1, imm),
        Op::Lhu => Operation::Lhu(rd, rs1, imm),
        _ => Operation::Other,
    }
}

fn store(op: Op, rs1: Reg, rs2: Reg, imm: i32) -> Operation
    ensures { instr_of result (Instr.Store op rs1 rs2 imm) ≡ Instr.Store op rs1 rs2 imm }
{
    match op {
        Op::Sb => Operation::Sb(rs1, rs2, imm),
        Op::Sh => Operation::Sh(rs1, rs2, imm),
        Op::Sw => Operation::Sw(rs1, rs2, imm),
        _ => Operation::Other,
    }
}

fn op_imm(op: Op, rd: Reg, rs1: Reg, imm: i32) -> Operation
    ensures { instr_of result (Instr.OpImm op rd rs1 imm) ≡ Instr.OpImm op rd rs1 imm }
{
    match op {
        Op::Add => Operation::AddImm(rd, rs1, imm),
        Op::Sll => Operation::SllImm(rd, rs1, imm),
        Op::Slt => Operation::SltImm(rd, rs1, imm),
        Op::Sltu => Operation::SltuImm(rd, rs1, imm),
        Op::Xor => Operation::XorImm(rd, rs1, imm),
        Op::Srl => Operation::SrlImm(rd, rs1, imm),
        Op::Sra => Operation::SraImm(rd, rs1, imm),
        Op::Or => Operation::OrImm(rd, rs1, imm),
        Op::And => Operation::AndImm(rd, rs1, imm),
        _ => Operation::Other,
    }
}

fn op_reg(op: Op, rd: Reg, rs1: Reg, rs2: Reg) -> Operation
    ensures { instr_of result (Instr.OpReg op rd rs1 rs2) ≡ Instr.OpReg op rd rs1 rs2 }
{
    match op {
        Op::Add => Operation::Add(rd, rs1, rs2),
        Op::Sub => Operation::Sub(rd, rs1, rs2),
        Op::Sll => Operation::Sll(rd, rs1, rs2),
        Op::Slt => Operation::Slt(rd, rs1, rs2),
        Op::Sltu => Operation::Sltu(rd, rs1, rs2),
        Op::Xor => Operation::Xor(rd, rs1, rs2),
        Op::Srl => Operation::Srl(rd, rs1, rs2),
        Op::Sra => Operation::Sra(rd, rs1, rs2),
        Op::Or => Operation::Or(rd, rs1, rs2),
        Op::And => Operation::And(rd, rs1, rs2),
        Op::Mul => Operation::Mul(rd, rs1, rs2),
        Op::Mulh => Operation::Mulh(rd, rs1, rs2),
        Op::Mulhsu => Operation::Mulhsu(rd, rs1, rs2),
        Op::Mulhu => Operation::Mulhu(rd, rs1, rs2),
        Op::Div => Operation::Div(rd, rs1, rs2),
        Op::Divu => Operation::Divu(rd, rs1, rs2),
        Op::Rem => Operation::Rem(rd, rs1, rs2),
        Op::Remu => Operation::Remu(rd, rs1, rs2),
        _ => Operation::Other,
    }
}

fn operation_of(instr: Instr) -> Operation
    ensures { instr_of result instr ≡ instr }
{
    match instr {
        Instr::Lui { rd, imm } => Operation::Lui(rd, imm),
        Instr::Auipc { rd, imm } => Operation::Auipc(rd, imm),
        Instr::Jal { rd, imm } => Operation::Jal(rd, imm),
        Instr::Jalr { rd, rs1, imm } => Operation::Jalr(rd, rs1, imm),
        Instr::Branch { op, rs1, rs2, imm } => branch(op, rs1, rs2, imm),
        Instr::Load { op, rd, rs1, imm } => load(op, rd, rs1, imm),
        Instr::Store { op, rs1, rs2, imm } => store(op, rs1, rs2, imm),
        Instr::OpImm { op, rd, rs1, imm } => op_imm(op, rd, rs1, imm),
        Instr::OpReg { op, rd, rs1, rs2 } => op_reg(op, rd, rs1, rs2),
        _ => Operation::Other,
    }
}

/// An instruction, and beside it the operation that stands for it, and the kind by which the pipeline treats it.
#[derive(Clone, Copy)]
pub struct Decoded {
    pub instr: Instr,
    pub operation: Operation,
    pub kind: Kind,
    pub ghost one: { instr_of operation instr ≡ instr },
    pub ghost kind_is: { kind ≡ kind_of instr },
}

impl Decoded {
    /// The instruction that the word encodes, `Illegal` with the word where it encodes none.
    pub fn new(word: u32) -> Decoded
        ensures { result.instr ≡ decode word }
    {
        let instr = decode(word);
        Decoded {
            instr,
            operation: operation_of(instr),
            kind: kind_of(&instr),
        }
    }
}

// Shown as its instruction, which operation and kind only stand for.
impl fmt::Debug for Decoded {
    fn fmt<W: fmt::Write>(&self, f: &mut fmt::Formatter<W>) -> fmt::Result {
        self.instr.fmt(f)
    }
}
