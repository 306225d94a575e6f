//! The marks of what an instruction computes (`docs/theorems.md`, "Secrets that are loaded").
ghost use Rattle.std.specs.Prelude.{◌≡◌, true};
ghost use Rattle.secret_marks.specs.Results.{
  add_constant,
  and_constant,
  by_known,
  left_by,
  of_constant,
  of_itself,
  of_operands,
  of_zero,
  result_marks,
  right_by,
};
ghost use Rattle.secret_marks.specs.Words.{every_byte, unmarked};

use crate::words::{
    UNMARKED, all_bytes, any_byte, downward, either, every_byte, lowest_byte, smeared, upward,
};
use rv_types::{Instr, Op};
use secret_marks::WordMarks;

// The marks of a result that is these where the second operand `b` is unmarked, and else every byte.
fn by_known(b: WordMarks, marks: WordMarks) -> WordMarks
    ensures { result ≡ by_known b marks }
{
    if any_byte(b) { every_byte(true) } else { marks }
}

// The marks of a value made of two operands of which one is marked in every byte.
#[inline(always)]
fn of_whole(op: Op) -> WordMarks
    ensures { result ≡ of_operands op (every_byte true) unmarked }
{
    match op {
        Op::Slt | Op::Sltu => lowest_byte(true),
        _ => every_byte(true),
    }
}

// The marks of a value made of two operands, byte by byte.
fn of_bytes(op: Op, a: WordMarks, b: WordMarks) -> WordMarks
    ensures { result ≡ of_operands op a b }
{
    match op {
        Op::And | Op::Or | Op::Xor => either(a, b),
        Op::Add | Op::Mul => upward(either(a, b)),
        Op::Sub | Op::Sll => by_known(b, upward(a)),
        Op::Srl => by_known(b, downward(a)),
        Op::Slt | Op::Sltu => lowest_byte(any_byte(either(a, b))),
        _ => smeared(either(a, b)),
    }
}

// The marks of a value made of two operands.
#[inline(always)]
fn of_operands(op: Op, a: WordMarks, b: WordMarks) -> WordMarks
    ensures { result ≡ of_operands op a b }
{
    if all_bytes(a) | all_bytes(b) {
        of_whole(op)
    } else {
        of_bytes(op, a, b)
    }
}

// The marks of a value made of one register twice.
fn of_itself(op: Op, a: WordMarks) -> WordMarks
    ensures { result ≡ of_itself op a }
{
    match op {
        Op::Xor | Op::Sub | Op::Slt | Op::Sltu => UNMARKED,
        _ => of_operands(op, a, a),
    }
}

// The marks of a sum of an operand and a constant.
fn add_constant(c: u32, a: WordMarks) -> WordMarks
    ensures { result ≡ add_constant c a }
{
    if c == 0 { a } else { upward(a) }
}

// The marks of an operand of which AND with a constant clears bytes.
fn and_constant(c: u32, a: WordMarks) -> WordMarks
    ensures { result ≡ and_constant c a }
{
    WordMarks {
        byte0: a.byte0 && c % 256 != 0,
        byte1: a.byte1 && c / 256 % 256 != 0,
        byte2: a.byte2 && c / 65536 % 256 != 0,
        byte3: a.byte3 && c / 16777216 != 0,
    }
}

// The marks of an operand that is shifted to the left by a known amount.
fn left_by(n: u32, a: WordMarks) -> WordMarks
    ensures { result ≡ left_by n a }
{
    if n == 0 {
        a
    } else if n == 8 {
        WordMarks {
            byte0: false,
            byte1: a.byte0,
            byte2: a.byte1,
            byte3: a.byte2,
        }
    } else if n == 16 {
        WordMarks {
            byte0: false,
            byte1: false,
            byte2: a.byte0,
            byte3: a.byte1,
        }
    } else if n == 24 {
        WordMarks {
            byte0: false,
            byte1: false,
            byte2: false,
            byte3: a.byte0,
        }
    } else {
        upward(a)
    }
}

// The marks of an operand that is shifted to the right by a known amount.
fn right_by(n: u32, a: WordMarks) -> WordMarks
    ensures { result ≡ right_by n a }
{
    if n == 0 {
        a
    } else if n == 8 {
        WordMarks {
            byte0: a.byte1,
            byte1: a.byte2,
            byte2: a.byte3,
            byte3: a.byte3,
        }
    } else if n == 16 {
        WordMarks {
            byte0: a.byte2,
            byte1: a.byte3,
            byte2: a.byte3,
            byte3: a.byte3,
        }
    } else if n == 24 {
        every_byte(a.byte3)
    } else {
        downward(a)
    }
}

// The marks of a value made of an operand and a constant.
#[inline(always)]
fn of_constant(op: Op, c: u32, a: WordMarks) -> WordMarks
    ensures { result ≡ of_constant op c a }
{
    match op {
        Op::Add => add_constant(c, a),
        Op::Mul => { if c == 0 { UNMARKED } else { upward(a) } }
        Op::And => and_constant(c, a),
        Op::Sll => left_by(c % 32, a),
        Op::Srl => right_by(c % 32, a),
        _ => of_operands(op, a, UNMARKED),
    }
}

// Register 0 before a register: AND and MUL are 0 whatever that holds.
fn of_zero(op: Op, a: WordMarks, b: WordMarks) -> WordMarks
    ensures { result ≡ of_zero op a b }
{
    match op {
        Op::And | Op::Mul => UNMARKED,
        _ => of_operands(op, a, b),
    }
}

/// The marks of an instruction's value, by those of its first and second source.
#[inline(always)]
pub fn result_marks(instr: &Instr, a: WordMarks, b: WordMarks) -> WordMarks
    ensures { result ≡ result_marks instr.now a b }
{
    match *instr {
        Instr::OpImm { op, imm, .. } => of_constant(op, imm.cast_unsigned(), a),
        Instr::OpReg { op, rs1, rs2, .. } => {
            if rs2.number == 0 {
                of_constant(op, 0, a)
            } else if rs1.number == 0 {
                of_zero(op, a, b)
            } else if rs1.number == rs2.number {
                of_itself(op, a)
            } else {
                of_operands(op, a, b)
            }
        }
        Instr::Branch { .. } => lowest_byte(any_byte(either(a, b))),
        _ => UNMARKED,
    }
}
