//! Words and their instructions, as an assembler of the RISC-V instruction set gives them.
use crate::asserting::assert_same;
use Form::{
    Auipc, Branch, Ebreak, Ecall, Fence, Illegal, Immediate, Jal, Jalr, Load, Lui, Registers, Store,
};
use rv_decode::{decode, encode};
use rv_types::{Instr, Op, Reg};

/// An instruction, with its registers by their numbers.
#[derive(Clone, Copy)]
pub enum Form {
    Lui(u8, i32),
    Auipc(u8, i32),
    Jal(u8, i32),
    Jalr(u8, u8, i32),
    Branch(Op, u8, u8, i32),
    Load(Op, u8, u8, i32),
    Store(Op, u8, u8, i32),
    Immediate(Op, u8, u8, i32),
    Registers(Op, u8, u8, u8),
    Fence(u32),
    Ecall,
    Ebreak,
    Illegal(u32),
}

// Word and instruction.
static WORDS: [(u32, Form); 56] = [
    // branches: first and second source, offset
    (0x0003_0463, Branch(Op::Beq, 6, 0, 8)),
    (0x8020_9063, Branch(Op::Bne, 1, 2, -4096)),
    (0x7e41_cfe3, Branch(Op::Blt, 3, 4, 4094)),
    (0xfe62_dfe3, Branch(Op::Bge, 5, 6, -2)),
    (0x0083_e0e3, Branch(Op::Bltu, 7, 8, 2048)),
    (0x0050_7a63, Branch(Op::Bgeu, 0, 5, 20)),
    (0x0050_7863, Branch(Op::Bgeu, 0, 5, 16)),
    // loads: destination, base, offset
    (0xfff1_0083, Load(Op::Lb, 1, 2, -1)),
    (0x7ff2_1183, Load(Op::Lh, 3, 4, 2047)),
    (0x8003_2383, Load(Op::Lw, 7, 6, -2048)),
    (0x0001_2283, Load(Op::Lw, 5, 2, 0)),
    (0x0081_4303, Load(Op::Lbu, 6, 2, 8)),
    (0xff0f_5f83, Load(Op::Lhu, 31, 30, -16)),
    // stores: base, data, offset
    (0x0023_0223, Store(Op::Sb, 6, 2, 4)),
    (0x8051_1023, Store(Op::Sh, 2, 5, -2048)),
    (0x0002_a423, Store(Op::Sw, 5, 0, 8)),
    // immediates: destination, source, immediate
    (0xfff0_0493, Immediate(Op::Add, 9, 0, -1)),
    (0x05d0_0893, Immediate(Op::Add, 17, 0, 93)),
    (0x8001_2093, Immediate(Op::Slt, 1, 2, -2048)),
    (0x7ff2_3193, Immediate(Op::Sltu, 3, 4, 2047)),
    (0xfff3_4293, Immediate(Op::Xor, 5, 6, -1)),
    (0x0014_6393, Immediate(Op::Or, 7, 8, 1)),
    (0x0ff5_7493, Immediate(Op::And, 9, 10, 255)),
    (0x0043_1313, Immediate(Op::Sll, 6, 6, 4)),
    (0x01f0_9093, Immediate(Op::Sll, 1, 1, 31)),
    (0x01f1_5093, Immediate(Op::Srl, 1, 2, 31)),
    (0x4012_5193, Immediate(Op::Sra, 3, 4, 1)),
    (0x41f2_5193, Immediate(Op::Sra, 3, 4, 31)),
    // registers: destination, first and second source
    (0x0051_0333, Registers(Op::Add, 6, 2, 5)),
    (0x4031_00b3, Registers(Op::Sub, 1, 2, 3)),
    (0x0062_9233, Registers(Op::Sll, 4, 5, 6)),
    (0x0094_23b3, Registers(Op::Slt, 7, 8, 9)),
    (0x00c5_b533, Registers(Op::Sltu, 10, 11, 12)),
    (0x00f7_46b3, Registers(Op::Xor, 13, 14, 15)),
    (0x0128_d833, Registers(Op::Srl, 16, 17, 18)),
    (0x415a_59b3, Registers(Op::Sra, 19, 20, 21)),
    (0x018b_eb33, Registers(Op::Or, 22, 23, 24)),
    (0x01bd_7cb3, Registers(Op::And, 25, 26, 27)),
    (0x0252_82b3, Registers(Op::Mul, 5, 5, 5)),
    (0x03ee_9e33, Registers(Op::Mulh, 28, 29, 30)),
    (0x0220_afb3, Registers(Op::Mulhsu, 31, 1, 2)),
    (0x0252_31b3, Registers(Op::Mulhu, 3, 4, 5)),
    (0x0202_c333, Registers(Op::Div, 6, 5, 0)),
    (0x02a4_d433, Registers(Op::Divu, 8, 9, 10)),
    (0x0202_e3b3, Registers(Op::Rem, 7, 5, 0)),
    (0x02d6_75b3, Registers(Op::Remu, 11, 12, 13)),
    // jumps and others
    (0x8000_0437, Lui(8, -0x8000_0000)),
    (0xffff_f297, Auipc(5, -4096)),
    (0x8000_00ef, Jal(1, -0x10_0000)),
    (0x0010_006f, Jal(0, 2048)),
    (0x7fff_f2ef, Jal(5, 0xf_fffe)),
    (0x0021_00e7, Jalr(1, 2, 2)),
    (0x800f_8067, Jalr(0, 31, -2048)),
    (0x0ff0_000f, Fence(0x0ff0_000f)),
    (0x0000_0073, Ecall),
    (0x0010_0073, Ebreak),
];

// Words of no instruction: all zeros and all ones, FENCE.I, MRET, a CSR read, fields that no row of the table has.
static ILLEGAL: [u32; 14] = [
    0,
    0xffff_ffff,
    0x0000_100f,
    0x3020_0073,
    0xc000_2573,
    0x0000_3003,
    0x0000_6003,
    0x0000_3023,
    0x0000_2063,
    0x0000_1067,
    0x4000_1013,
    0x0200_5013,
    0x4000_1033,
    0x0400_0033,
];

// Instructions that no word encodes: immediates out of range or of the wrong shape, operations of another form.
static WITHOUT_WORD: [Form; 17] = [
    Immediate(Op::Add, 1, 2, 2048),
    Immediate(Op::Add, 1, 2, -2049),
    Immediate(Op::Sll, 1, 2, 32),
    Immediate(Op::Sra, 1, 2, -1),
    Immediate(Op::Sub, 1, 2, 1),
    Immediate(Op::Mul, 1, 2, 1),
    Registers(Op::Beq, 1, 2, 5),
    Load(Op::Sw, 1, 2, 0),
    Store(Op::Sw, 2, 5, 2048),
    Branch(Op::Beq, 2, 5, 1),
    Branch(Op::Beq, 2, 5, 4096),
    Branch(Op::Lb, 2, 5, 8),
    Jal(1, 0x10_0000),
    Jal(1, 3),
    Lui(1, 1),
    Fence(0),
    Illegal(0x0000_0073),
];

fn x(number: u8) -> Reg {
    Reg {
        number: number % 32,
    }
}

/// The instruction of a form.
pub fn instr_of(form: Form) -> Instr {
    match form {
        Lui(rd, imm) => Instr::Lui { rd: x(rd), imm },
        Auipc(rd, imm) => Instr::Auipc { rd: x(rd), imm },
        Jal(rd, imm) => Instr::Jal { rd: x(rd), imm },
        Jalr(rd, rs1, imm) => Instr::Jalr {
            rd: x(rd),
            rs1: x(rs1),
            imm,
        },
        Branch(op, rs1, rs2, imm) => Instr::Branch {
            op,
            rs1: x(rs1),
            rs2: x(rs2),
            imm,
        },
        Load(op, rd, rs1, imm) => Instr::Load {
            op,
            rd: x(rd),
            rs1: x(rs1),
            imm,
        },
        Store(op, rs1, rs2, imm) => Instr::Store {
            op,
            rs1: x(rs1),
            rs2: x(rs2),
            imm,
        },
        Immediate(op, rd, rs1, imm) => Instr::OpImm {
            op,
            rd: x(rd),
            rs1: x(rs1),
            imm,
        },
        Registers(op, rd, rs1, rs2) => Instr::OpReg {
            op,
            rd: x(rd),
            rs1: x(rs1),
            rs2: x(rs2),
        },
        Fence(word) => Instr::Fence(word),
        Ecall => Instr::Ecall,
        Ebreak => Instr::Ebreak,
        Illegal(word) => Instr::Illegal(word),
    }
}

#[test]
fn word_and_instruction_are_each_others(rt: HostRuntime) {
    for &(word, form) in &WORDS {
        let instr = instr_of(form);
        assert_same(&rt, &(decode(word), encode(&instr)), &(instr, Some(word)));
    }
}

#[test]
fn illegal_words(rt: HostRuntime) {
    for &word in &ILLEGAL {
        let instr = Instr::Illegal(word);
        assert_same(&rt, &(decode(word), encode(&instr)), &(instr, Some(word)));
    }
}

#[test]
fn instructions_without_a_word(rt: HostRuntime) {
    for &form in &WITHOUT_WORD {
        let instr = instr_of(form);
        assert_same(&rt, &(instr, encode(&instr)), &(instr, None));
    }
}
