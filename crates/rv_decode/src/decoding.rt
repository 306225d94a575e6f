//! From a word to its instruction: a match on the opcode, and for each opcode one on the fields funct3 and funct7.
ghost use Rattle.std.specs.Prelude.{◌≡◌};
ghost use Rattle.rv_types.specs.Word.{field};
ghost use Rattle.rv_types.specs.Decode.{decode, branch, load, store, op_imm, shift_imm, op_reg};

use crate::fields::{field, imm_b, imm_i, imm_j, imm_s, imm_u, rd, rs1, rs2};
use crate::opcodes::{
    AUIPC, BRANCH, EBREAK, ECALL, JAL, JALR, LOAD, LUI, MISC_MEM, MULDIV, OP, OP_IMM, OTHER, STORE,
    SYSTEM,
};
use rv_types::{Instr, Op};

// The field funct3 of a word.
#[inline]
fn funct3(word: u32) -> u32
    ensures { result ≡ field word 12 3 }
{
    field(word, 12, 3)
}

// The field funct7 of a word.
#[inline]
fn funct7(word: u32) -> u32
    ensures { result ≡ field word 25 7 }
{
    field(word, 25, 7)
}

// A branch with this operation.
#[inline]
fn branch_with(op: Op, word: u32) -> Instr
    ensures { result ≡ branch op word }
{
    Instr::Branch {
        op,
        rs1: rs1(word),
        rs2: rs2(word),
        imm: imm_b(word),
    }
}

// A load with this operation.
#[inline]
fn load_with(op: Op, word: u32) -> Instr
    ensures { result ≡ load op word }
{
    Instr::Load {
        op,
        rd: rd(word),
        rs1: rs1(word),
        imm: imm_i(word),
    }
}

// A store with this operation.
#[inline]
fn store_with(op: Op, word: u32) -> Instr
    ensures { result ≡ store op word }
{
    Instr::Store {
        op,
        rs1: rs1(word),
        rs2: rs2(word),
        imm: imm_s(word),
    }
}

// An operation on a register and an immediate.
#[inline]
fn op_imm_with(op: Op, word: u32) -> Instr
    ensures { result ≡ op_imm op word }
{
    Instr::OpImm {
        op,
        rd: rd(word),
        rs1: rs1(word),
        imm: imm_i(word),
    }
}

// A shift by an immediate, the amount in bits 24..20.
#[inline]
fn shift_imm_with(op: Op, word: u32) -> Instr
    ensures { result ≡ shift_imm op word }
{
    Instr::OpImm {
        op,
        rd: rd(word),
        rs1: rs1(word),
        imm: field(word, 20, 5) as i32,
    }
}

// An operation on two registers.
#[inline]
fn op_reg_with(op: Op, word: u32) -> Instr
    ensures { result ≡ op_reg op word }
{
    Instr::OpReg {
        op,
        rd: rd(word),
        rs1: rs1(word),
        rs2: rs2(word),
    }
}

// The instruction of a word with the opcode JALR.
#[tactic(auto, using(crate::proofs::Rows::decode_jalr))]
fn jalr(word: u32) -> Instr
    requires { field word 0 7 ≡ JALR }
    ensures { result ≡ decode word }
{
    match funct3(word) {
        0 => Instr::Jalr {
            rd: rd(word),
            rs1: rs1(word),
            imm: imm_i(word),
        },
        _ => Instr::Illegal(word),
    }
}

// The instruction of a word with the opcode of branches.
#[tactic(auto, using(crate::proofs::Rows::decode_branch))]
fn branch(word: u32) -> Instr
    requires { field word 0 7 ≡ BRANCH }
    ensures { result ≡ decode word }
{
    match funct3(word) {
        0 => branch_with(Op::Beq, word),
        1 => branch_with(Op::Bne, word),
        4 => branch_with(Op::Blt, word),
        5 => branch_with(Op::Bge, word),
        6 => branch_with(Op::Bltu, word),
        7 => branch_with(Op::Bgeu, word),
        _ => Instr::Illegal(word),
    }
}

// The instruction of a word with the opcode of loads.
#[tactic(auto, using(crate::proofs::Rows::decode_load))]
fn load(word: u32) -> Instr
    requires { field word 0 7 ≡ LOAD }
    ensures { result ≡ decode word }
{
    match funct3(word) {
        0 => load_with(Op::Lb, word),
        1 => load_with(Op::Lh, word),
        2 => load_with(Op::Lw, word),
        4 => load_with(Op::Lbu, word),
        5 => load_with(Op::Lhu, word),
        _ => Instr::Illegal(word),
    }
}

// The instruction of a word with the opcode of stores.
#[tactic(auto, using(crate::proofs::Rows::decode_store))]
fn store(word: u32) -> Instr
    requires { field word 0 7 ≡ STORE }
    ensures { result ≡ decode word }
{
    match funct3(word) {
        0 => store_with(Op::Sb, word),
        1 => store_with(Op::Sh, word),
        2 => store_with(Op::Sw, word),
        _ => Instr::Illegal(word),
    }
}

// The operations on a register and an immediate.
#[tactic(auto, using(crate::proofs::Rows::decode_op_imm))]
fn op_imm(word: u32) -> Instr
    requires { field word 0 7 ≡ OP_IMM }
    ensures { result ≡ decode word }
{
    match funct3(word) {
        0 => op_imm_with(Op::Add, word),
        1 if funct7(word) == 0 => shift_imm_with(Op::Sll, word),
        2 => op_imm_with(Op::Slt, word),
        3 => op_imm_with(Op::Sltu, word),
        4 => op_imm_with(Op::Xor, word),
        5 if funct7(word) == 0 => shift_imm_with(Op::Srl, word),
        5 if funct7(word) == OTHER => shift_imm_with(Op::Sra, word),
        6 => op_imm_with(Op::Or, word),
        7 => op_imm_with(Op::And, word),
        _ => Instr::Illegal(word),
    }
}

// The operations on two registers that have funct7 0.
#[tactic(auto, using(crate::proofs::Rows::decode_op_base))]
fn op_base(word: u32) -> Instr
    requires opcode { field word 0 7 ≡ OP }
    requires funct7 { field word 25 7 ≡ 0 }
    ensures { result ≡ decode word }
{
    match funct3(word) {
        0 => op_reg_with(Op::Add, word),
        1 => op_reg_with(Op::Sll, word),
        2 => op_reg_with(Op::Slt, word),
        3 => op_reg_with(Op::Sltu, word),
        4 => op_reg_with(Op::Xor, word),
        5 => op_reg_with(Op::Srl, word),
        6 => op_reg_with(Op::Or, word),
        _ => op_reg_with(Op::And, word),
    }
}

// The multiplication or division of a word with the opcode OP.
#[tactic(auto, using(crate::proofs::Rows::decode_op_muldiv))]
fn op_muldiv(word: u32) -> Instr
    requires opcode { field word 0 7 ≡ OP }
    requires funct7 { field word 25 7 ≡ MULDIV }
    ensures { result ≡ decode word }
{
    match funct3(word) {
        0 => op_reg_with(Op::Mul, word),
        1 => op_reg_with(Op::Mulh, word),
        2 => op_reg_with(Op::Mulhsu, word),
        3 => op_reg_with(Op::Mulhu, word),
        4 => op_reg_with(Op::Div, word),
        5 => op_reg_with(Op::Divu, word),
        6 => op_reg_with(Op::Rem, word),
        _ => op_reg_with(Op::Remu, word),
    }
}

// SUB or SRA, for a word with the opcode OP and the funct7 of the two; any other such word is illegal.
#[tactic(auto, using(crate::proofs::Rows::decode_op_other))]
fn op_other(word: u32) -> Instr
    requires opcode { field word 0 7 ≡ OP }
    requires funct7 { field word 25 7 ≡ OTHER }
    ensures { result ≡ decode word }
{
    match funct3(word) {
        0 => op_reg_with(Op::Sub, word),
        5 => op_reg_with(Op::Sra, word),
        _ => Instr::Illegal(word),
    }
}

// The operations on two registers.
#[tactic(auto, using(crate::proofs::Rows::decode_op_none))]
fn op_reg(word: u32) -> Instr
    requires { field word 0 7 ≡ OP }
    ensures { result ≡ decode word }
{
    match funct7(word) {
        0 => op_base(word),
        MULDIV => op_muldiv(word),
        OTHER => op_other(word),
        _ => Instr::Illegal(word),
    }
}

// The instruction of a word with the opcode of FENCE.
#[tactic(auto, using(crate::proofs::Rows::decode_misc_mem))]
fn misc_mem(word: u32) -> Instr
    requires { field word 0 7 ≡ MISC_MEM }
    ensures { result ≡ decode word }
{
    match funct3(word) {
        0 => Instr::Fence(word),
        _ => Instr::Illegal(word),
    }
}

// The instruction of a word with the opcode of ECALL and EBREAK.
#[tactic(auto, using(crate::proofs::Rows::decode_system))]
fn system(word: u32) -> Instr
    requires { field word 0 7 ≡ SYSTEM }
    ensures { result ≡ decode word }
{
    match word {
        ECALL => Instr::Ecall,
        EBREAK => Instr::Ebreak,
        _ => Instr::Illegal(word),
    }
}

/// The instruction that the word encodes, `Illegal` with the word where it encodes none.
#[tactic(auto, using(crate::proofs::Rows::decode_lui, crate::proofs::Rows::decode_auipc, crate::proofs::Rows::decode_jal, crate::proofs::Rows::decode_none))]
pub fn decode(word: u32) -> Instr
    ensures { result ≡ decode word }
{
    match field(word, 0, 7) {
        LUI => Instr::Lui {
            rd: rd(word),
            imm: imm_u(word),
        },
        AUIPC => Instr::Auipc {
            rd: rd(word),
            imm: imm_u(word),
        },
        JAL => Instr::Jal {
            rd: rd(word),
            imm: imm_j(word),
        },
        JALR => jalr(word),
        BRANCH => branch(word),
        LOAD => load(word),
        STORE => store(word),
        OP_IMM => op_imm(word),
        OP => op_reg(word),
        MISC_MEM => misc_mem(word),
        SYSTEM => system(word),
        _ => Instr::Illegal(word),
    }
}
