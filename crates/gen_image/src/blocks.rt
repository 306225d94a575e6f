//! The instructions of a block.
ghost use Rattle.std.specs.Prelude.{◌≡◌, ◌<◌, [], slice_index_or, pos};
ghost use Rattle.gen_image.specs.Generated.{register, forms, block_of, after_block};
ghost use Rattle.rv_types.specs.declared.Op.TheVariants.{Blt, Lw, Sw, Add};
ghost use Rattle.rv_types.specs.declared.Instr.TheVariants.{Branch, Load, Store, OpImm, OpReg};

use crate::draws::Draws;
use rv_types::{Instr, Op, Reg};

/// How many forms of blocks there are.
const FORMS: u32 = 6;

/// The offsets that are drawn, in words.
const OFFSETS: u32 = 256;

/// The registers that are drawn: so many, from x5 on.
const CHOICES: u32 = 3;

const FIRST: u32 = 5;

/// The register that holds an address in memory.
pub(crate) const BASE: u32 = 8;

/// The register of a number.
pub(crate) fn register(number: u32) -> Reg
    ensures { result ≡ register number }
{
    Reg {
        number: (number % 32) as u8,
    }
}

/// The instruction ADDI of two registers and an immediate.
pub(crate) fn add_immediate(rd: Reg, rs1: Reg, imm: i32) -> Instr
    ensures { result ≡ OpImm Add rd rs1 imm }
{
    Instr::OpImm {
        op: Op::Add,
        rd,
        rs1,
        imm,
    }
}

// An operation on a register and another, whose result goes to the first.
fn onto(op: Op, rd: Reg, other: Reg) -> Instr
    ensures { result ≡ OpReg op rd rd other }
{
    Instr::OpReg {
        op,
        rd,
        rs1: rd,
        rs2: other,
    }
}

fn load(rd: Reg, imm: i32) -> Instr
    ensures { result ≡ Load Lw rd (register 8) imm }
{
    Instr::Load {
        op: Op::Lw,
        rd,
        rs1: register(BASE),
        imm,
    }
}

fn store(rs2: Reg, imm: i32) -> Instr
    ensures { result ≡ Store Sw (register 8) rs2 imm }
{
    Instr::Store {
        op: Op::Sw,
        rs1: register(BASE),
        rs2,
        imm,
    }
}

// The two instructions of a form.
fn form(form: u32, d: Reg, e: Reg, offset: u32) -> [Instr; 2]
    requires form { form < 6 }
    requires offset { offset < 2048 }
    ensures { result ≡ slice_index_or (forms d e offset) form [] }
{
    let imm = offset as i32;
    match form {
        0 => [add_immediate(d, e, imm), onto(Op::Xor, e, d)],
        1 => [store(d, imm), load(e, imm)],
        2 => [load(d, imm), onto(Op::Add, e, d)],
        3 => [onto(Op::Mul, d, e), add_immediate(e, e, 1)],
        4 => [onto(Op::Div, d, e), add_immediate(d, d, imm)],
        _ => [skip_if_less(d, e), add_immediate(d, d, 1)],
    }
}

// A branch over the next instruction.
fn skip_if_less(rs1: Reg, rs2: Reg) -> Instr
    ensures { result ≡ Branch Blt rs1 rs2 (pos 8) }
{
    Instr::Branch {
        op: Op::Blt,
        rs1,
        rs2,
        imm: 8,
    }
}

/// The next block: four draws, and the two instructions of them.
pub(crate) fn block(draws: &mut Draws) -> [Instr; 2]
    ensures instrs { result ≡ block_of draws.old.state }
    ensures state { draws.new.state ≡ after_block draws.old.state }
{
    let chosen = draws.draw() % FORMS;
    let offset = 4 * (draws.draw() % OFFSETS);
    let d = register(FIRST + draws.draw() % CHOICES);
    let e = register(FIRST + draws.draw() % CHOICES);
    form(chosen, d, e, offset)
}
