//! From an instruction to its word.
ghost use Rattle.std.specs.Prelude.{◌≡◌, ℕ, ◌<◌, ◌^◌, ◌↔◌, IsTrue, IfSome};
ghost use Rattle.rv_types.specs.Word.{word};
ghost use Rattle.rv_types.specs.Decode.{decode};
ghost use Rattle.rv_decode.specs.Forms.{r_form, i_form, s_form, b_form, u_form, j_form, funct3_of, funct7_of, immediate_of, word_of};

use crate::decode;
use crate::fields::field;
use crate::opcodes::{
    AUIPC, BRANCH, EBREAK, ECALL, JAL, JALR, LOAD, LUI, MULDIV, OP, OP_IMM, OTHER, STORE,
};
use rv_types::{Instr, Op, Reg};

// The word with these fields, from the lowest to the highest.
fn joined(opcode: u32, rd: u32, funct3: u32, rs1: Reg, rs2: u32, funct7: u32) -> u32
    requires opcode { opcode < 2 ^ 7 }
    requires rd { rd < 2 ^ 5 }
    requires funct3 { funct3 < 2 ^ 3 }
    requires rs2 { rs2 < 2 ^ 5 }
    requires funct7 { funct7 < 2 ^ 7 }
    ensures { result ≡ r_form opcode rd funct3 rs1.number rs2 funct7 }
{
    opcode + (rd << 7) + (funct3 << 12) + ((rs1.number as u32) << 15) + (rs2 << 20) + (funct7 << 25)
}

// A word of the form R.
fn r_form(opcode: u32, rd: Reg, funct3: u32, rs1: Reg, rs2: Reg, funct7: u32) -> u32
    requires opcode { opcode < 2 ^ 7 }
    requires funct3 { funct3 < 2 ^ 3 }
    requires funct7 { funct7 < 2 ^ 7 }
    ensures { result ≡ r_form opcode rd.number funct3 rs1.number rs2.number funct7 }
{
    joined(
        opcode,
        rd.number as u32,
        funct3,
        rs1,
        rs2.number as u32,
        funct7,
    )
}

// A word of the form I.
fn i_form(opcode: u32, rd: Reg, funct3: u32, rs1: Reg, imm: u32) -> u32
    requires opcode { opcode < 2 ^ 7 }
    requires funct3 { funct3 < 2 ^ 3 }
    ensures { result ≡ i_form opcode rd.number funct3 rs1.number imm }
{
    joined(opcode, rd.number as u32, funct3, rs1, 0, 0) + (field(imm, 0, 12) << 20)
}

// A word of the form S.
fn s_form(opcode: u32, funct3: u32, rs1: Reg, rs2: Reg, imm: u32) -> u32
    requires opcode { opcode < 2 ^ 7 }
    requires funct3 { funct3 < 2 ^ 3 }
    ensures { result ≡ s_form opcode funct3 rs1.number rs2.number imm }
{
    joined(
        opcode,
        field(imm, 0, 5),
        funct3,
        rs1,
        rs2.number as u32,
        field(imm, 5, 7),
    )
}

// A word of the form B.
fn b_form(opcode: u32, funct3: u32, rs1: Reg, rs2: Reg, imm: u32) -> u32
    requires opcode { opcode < 2 ^ 7 }
    requires funct3 { funct3 < 2 ^ 3 }
    ensures { result ≡ b_form opcode funct3 rs1.number rs2.number imm }
{
    let low = field(imm, 11, 1) + (field(imm, 1, 4) << 1);
    let high = field(imm, 5, 6) + (field(imm, 12, 1) << 6);
    joined(opcode, low, funct3, rs1, rs2.number as u32, high)
}

// A word of the form U.
fn u_form(opcode: u32, rd: Reg, imm: u32) -> u32
    requires { opcode < 2 ^ 7 }
    ensures { result ≡ u_form opcode rd.number imm }
{
    opcode + ((rd.number as u32) << 7) + (field(imm, 12, 20) << 12)
}

// A word of the form J.
fn j_form(opcode: u32, rd: Reg, imm: u32) -> u32
    requires { opcode < 2 ^ 7 }
    ensures { result ≡ j_form opcode rd.number imm }
{
    opcode
        + ((rd.number as u32) << 7)
        + (field(imm, 12, 8) << 12)
        + (field(imm, 11, 1) << 20)
        + (field(imm, 1, 10) << 21)
        + (field(imm, 20, 1) << 31)
}

// The field funct3 of an operation.
fn funct3_of(op: Op) -> u32
    ensures value { result ≡ funct3_of op }
    ensures few { result < 2 ^ 3 }
{
    match op {
        Op::Beq | Op::Lb | Op::Sb | Op::Add | Op::Sub | Op::Mul => 0,
        Op::Bne | Op::Lh | Op::Sh | Op::Sll | Op::Mulh => 1,
        Op::Lw | Op::Sw | Op::Slt | Op::Mulhsu => 2,
        Op::Sltu | Op::Mulhu => 3,
        Op::Blt | Op::Lbu | Op::Xor | Op::Div => 4,
        Op::Bge | Op::Lhu | Op::Srl | Op::Sra | Op::Divu => 5,
        Op::Bltu | Op::Or | Op::Rem => 6,
        Op::Bgeu | Op::And | Op::Remu => 7,
    }
}

// The field funct7 of an operation on two registers.
fn funct7_of(op: Op) -> u32
    ensures value { result ≡ funct7_of op }
    ensures few { result < 2 ^ 7 }
{
    match op {
        Op::Sub | Op::Sra => OTHER,
        Op::Mul | Op::Mulh | Op::Mulhsu | Op::Mulhu => MULDIV,
        Op::Div | Op::Divu | Op::Rem | Op::Remu => MULDIV,
        _ => 0,
    }
}

// The immediate of an operation on a register and an immediate, with SRAI's further bit.
fn immediate_of(op: Op, imm: i32) -> u32
    ensures { result ≡ immediate_of op (word imm) }
{
    let bits = imm.cast_unsigned();
    match op {
        Op::Sra => bits.wrapping_add(OTHER << 5),
        _ => bits,
    }
}

// The word of the instruction's fields, each cut to its bits.
fn word_of(instr: &Instr) -> u32
    ensures { result ≡ word_of instr.now }
{
    match *instr {
        Instr::Lui { rd, imm } => u_form(LUI, rd, imm.cast_unsigned()),
        Instr::Auipc { rd, imm } => u_form(AUIPC, rd, imm.cast_unsigned()),
        Instr::Jal { rd, imm } => j_form(JAL, rd, imm.cast_unsigned()),
        Instr::Jalr { rd, rs1, imm } => i_form(JALR, rd, 0, rs1, imm.cast_unsigned()),
        Instr::Branch { op, rs1, rs2, imm } => {
            b_form(BRANCH, funct3_of(op), rs1, rs2, imm.cast_unsigned())
        }
        Instr::Load { op, rd, rs1, imm } => {
            i_form(LOAD, rd, funct3_of(op), rs1, imm.cast_unsigned())
        }
        Instr::Store { op, rs1, rs2, imm } => {
            s_form(STORE, funct3_of(op), rs1, rs2, imm.cast_unsigned())
        }
        Instr::OpImm { op, rd, rs1, imm } => {
            i_form(OP_IMM, rd, funct3_of(op), rs1, immediate_of(op, imm))
        }
        Instr::OpReg { op, rd, rs1, rs2 } => {
            r_form(OP, rd, funct3_of(op), rs1, rs2, funct7_of(op))
        }
        Instr::Fence(word) | Instr::Illegal(word) => word,
        Instr::Ecall => ECALL,
        Instr::Ebreak => EBREAK,
    }
}

// Whether two instructions are the same.
fn is_same(one: &Instr, other: &Instr) -> bool
    ensures { IsTrue result ↔ (one.now ≡ other.now) }
{
    *one == *other
}

/// The word that decodes to the instruction. None exactly where there is none: an immediate is out of its form's range
/// or has a bit that the form keeps zero, the operation isn't of the instruction's group, or the word that a FENCE or
/// an illegal instruction keeps isn't one.
///
/// The fields, each cut to its bits, make one word; it is the answer where it decodes to the instruction again.
#[tactic(auto, using(crate::proofs::Words::comes_back_as))]
pub fn encode(instr: &Instr) -> Option<u32>
    ensures decodes { IfSome result (λ w. decode w ≡ instr.now) }
    ensures inverse { (w : ℕ) → w < 2 ^ 32 → decode w ≡ instr.now → result ≡ Some w }
{
    let word = word_of(instr);
    if is_same(&decode(word), instr) {
        Some(word)
    } else {
        None
    }
}
