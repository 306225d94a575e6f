//! Worked values, at the corners of each operation.
use crate::asserting::assert_same;
use rv_alu::{div_time, extend, taken, value};
use rv_types::Op;

const LEAST: u32 = 0x8000_0000;

const MINUS_1: u32 = 0xffff_ffff;

const MINUS_6: u32 = 0xffff_fffa;

const MINUS_20: u32 = 0xffff_ffec;

// Operation, first and second source, and the value that the manual's formulas give.
static VALUES: [(Op, u32, u32, u32); 54] = [
    (Op::Add, MINUS_1, 1, 0),
    (Op::Add, LEAST, LEAST, 0),
    (Op::Sub, 0, 1, MINUS_1),
    (Op::Sub, LEAST, MINUS_1, 0x8000_0001),
    (Op::Sll, 1, 31, LEAST),
    (Op::Sll, 0x2121_2121, 14, 0x4848_4000),
    (Op::Sll, 0x2121_2121, 0xffff_ffce, 0x4848_4000),
    (Op::Slt, LEAST, 0x7fff_ffff, 1),
    (Op::Slt, 7, 7, 0),
    (Op::Slt, 0, MINUS_1, 0),
    (Op::Sltu, 0, MINUS_1, 1),
    (Op::Sltu, LEAST, 0x7fff_ffff, 0),
    (Op::Xor, 0xff00_ff00, 0x0f0f_0f0f, 0xf00f_f00f),
    (Op::Or, 0xff00_ff00, 0x0f0f_0f0f, 0xff0f_ff0f),
    (Op::And, 0xff00_ff00, 0x0f0f_0f0f, 0x0f00_0f00),
    (Op::Srl, LEAST, 31, 1),
    (Op::Srl, 0x2121_2121, 0xffff_ffc7, 0x0042_4242),
    (Op::Sra, LEAST, 31, MINUS_1),
    (Op::Sra, LEAST, 32, LEAST),
    (Op::Sra, 0x7fff_ffff, 7, 0x00ff_ffff),
    (Op::Sra, 0x8181_8181, 0xffff_ffce, 0xfffe_0606),
    (Op::Mul, MINUS_1, MINUS_1, 1),
    (Op::Mul, 0x0000_7e00, 0xb6db_6db7, 0x0000_1200),
    (Op::Mulh, MINUS_1, MINUS_1, 0),
    (Op::Mulh, LEAST, LEAST, 0x4000_0000),
    (Op::Mulh, MINUS_1, 1, MINUS_1),
    (Op::Mulh, 0xff00_0000, 0xff00_0000, 0x0001_0000),
    (Op::Mulhsu, MINUS_1, MINUS_1, MINUS_1),
    (Op::Mulhsu, LEAST, MINUS_1, LEAST),
    (Op::Mulhsu, 1, MINUS_1, 0),
    (Op::Mulhsu, 0xff00_0000, 0xff00_0000, 0xff01_0000),
    (Op::Mulhu, MINUS_1, MINUS_1, 0xffff_fffe),
    (Op::Mulhu, 0xff00_0000, 0xff00_0000, 0xfe01_0000),
    (Op::Div, 20, 6, 3),
    (Op::Div, MINUS_20, 6, 0xffff_fffd),
    (Op::Div, 20, MINUS_6, 0xffff_fffd),
    (Op::Div, MINUS_20, MINUS_6, 3),
    (Op::Div, 7, 0, MINUS_1),
    (Op::Div, LEAST, 0, MINUS_1),
    (Op::Div, LEAST, MINUS_1, LEAST),
    (Op::Divu, MINUS_20, 6, 0x2aaa_aaa7),
    (Op::Divu, LEAST, MINUS_1, 0),
    (Op::Divu, 0, 0, MINUS_1),
    (Op::Rem, 20, 6, 2),
    (Op::Rem, MINUS_20, 6, 0xffff_fffe),
    (Op::Rem, 20, MINUS_6, 2),
    (Op::Rem, MINUS_20, MINUS_6, 0xffff_fffe),
    (Op::Rem, MINUS_20, 0, MINUS_20),
    (Op::Rem, LEAST, MINUS_1, 0),
    (Op::Remu, MINUS_20, 6, 2),
    (Op::Remu, LEAST, MINUS_1, LEAST),
    (Op::Remu, 7, 0, 7),
    (Op::Beq, 1, 1, 0),
    (Op::Lw, 1, 1, 0),
];

// Branch, first and second source, and whether it is taken.
static BRANCHES: [(Op, u32, u32, bool); 15] = [
    (Op::Beq, 5, 5, true),
    (Op::Beq, 5, 6, false),
    (Op::Bne, 5, 5, false),
    (Op::Bne, 0, MINUS_1, true),
    (Op::Blt, MINUS_1, 0, true),
    (Op::Blt, 0, MINUS_1, false),
    (Op::Blt, 3, 3, false),
    (Op::Bge, LEAST, 0x7fff_ffff, false),
    (Op::Bge, 3, 3, true),
    (Op::Bltu, MINUS_1, 0, false),
    (Op::Bltu, 0, MINUS_1, true),
    (Op::Bgeu, 3, 3, true),
    (Op::Bgeu, LEAST, 0x7fff_ffff, true),
    (Op::Bgeu, 0, 1, false),
    (Op::Add, 5, 5, false),
];

// Division, dividend, and the time in cycles: 3, and one for each binary digit of the dividend's magnitude.
static TIMES: [(Op, u32, u8); 8] = [
    (Op::Div, 0, 3),
    (Op::Div, LEAST, 35),
    (Op::Div, MINUS_1, 4),
    (Op::Div, 0x7fff_ffff, 34),
    (Op::Rem, MINUS_20, 8),
    (Op::Divu, MINUS_1, 35),
    (Op::Divu, 1, 4),
    (Op::Remu, 7, 6),
];

// Load, the bytes that memory has, and the value.
const LOADS: [(Op, u32, u32); 7] = [
    (Op::Lb, 0x7f, 0x7f),
    (Op::Lb, 0x80, 0xffff_ff80),
    (Op::Lbu, 0x80, 0x80),
    (Op::Lh, 0x7fff, 0x7fff),
    (Op::Lh, 0xfffe, 0xffff_fffe),
    (Op::Lhu, 0xfffe, 0xfffe),
    (Op::Lw, 0x8000_0001, 0x8000_0001),
];

#[test]
fn values_are_the_manuals(rt: HostRuntime) {
    for &(op, a, b, wanted) in &VALUES {
        assert_same(&rt, &(op, a, b, value(op, a, b)), &(op, a, b, wanted));
    }
}

#[test]
fn branches_are_the_manuals(rt: HostRuntime) {
    for &(op, a, b, wanted) in &BRANCHES {
        assert_same(&rt, &(op, a, b, taken(op, a, b)), &(op, a, b, wanted));
    }
}

#[test]
fn divisions_take_a_cycle_a_digit(rt: HostRuntime) {
    for &(op, a, wanted) in &TIMES {
        assert_same(&rt, &(op, a, div_time(op, a)), &(op, a, wanted));
    }
}

#[test]
fn loads_extend_their_bytes(rt: HostRuntime) {
    for (op, bytes, wanted) in LOADS {
        assert_same(&rt, &(op, bytes, extend(op, bytes)), &(op, bytes, wanted));
    }
}
