//! One instruction of each form, and one call of each answer; the values are those of the manual's formulas.
use crate::asserting::assert_same;
use crate::words::{Form, instr_of};
use byte_ram::Ram;
use rv_effect::{Effect, call, effect};
use rv_types::{Op, Piece, Width};
use std::test::Fail;

const PC: u32 = 0x0001_0000;

const NEXT: u32 = 0x0001_0004;

const BASE: u32 = 0x0002_0000;

const SIZE: u32 = 64;

// The destination, and the sources.
const RD: u8 = 7;

const RS1: u8 = 5;

const RS2: u8 = 6;

// An instruction at PC, the values of its sources, and the value, next, address and stored value of its effect, and
// whether it jumps to no multiple of 4.
static EFFECTS: [(Form, u32, u32, u32, u32, u32, u32, bool); 15] = [
    (Form::Lui(RD, -4096), 1, 2, 0xffff_f000, NEXT, 0, 0, false),
    (Form::Auipc(RD, -4096), 1, 2, 0xf000, NEXT, 0, 0, false),
    (Form::Jal(RD, -16), 1, 2, NEXT, 0xfff0, 0, 0, false),
    (Form::Jal(RD, 2), 1, 2, NEXT, 0x0001_0002, 0, 0, true),
    (Form::Jalr(RD, RS1, -4), 0x21, 2, NEXT, 0x1c, 0, 0, false),
    (Form::Jalr(RD, RS1, 2), 0x21, 2, NEXT, 0x22, 0, 0, true),
    (
        Form::Branch(Op::Beq, RS1, RS2, 6),
        3,
        3,
        1,
        0x0001_0006,
        0,
        0,
        true,
    ),
    (
        Form::Branch(Op::Beq, RS1, RS2, 6),
        3,
        4,
        0,
        NEXT,
        0,
        0,
        false,
    ),
    (
        Form::Load(Op::Lw, RD, RS1, -1),
        0,
        2,
        0,
        NEXT,
        0xffff_ffff,
        0,
        false,
    ),
    (
        Form::Store(Op::Sw, RS1, RS2, 4),
        0xffff_ffff,
        9,
        0,
        NEXT,
        3,
        9,
        false,
    ),
    (
        Form::Immediate(Op::Add, RD, RS1, -1),
        5,
        2,
        4,
        NEXT,
        0,
        0,
        false,
    ),
    (
        Form::Registers(Op::Sub, RD, RS1, RS2),
        5,
        7,
        0xffff_fffe,
        NEXT,
        0,
        0,
        false,
    ),
    (Form::Fence(15), 1, 2, 0, NEXT, 0, 0, false),
    (Form::Ecall, 1, 2, 0, NEXT, 0, 0, false),
    (Form::Illegal(0), 1, 2, 0, NEXT, 0, 0, false),
];

#[test]
fn effects_are_the_manuals(rt: HostRuntime) {
    for &(form, first, second, value, next, addr, stored, misaligned) in &EFFECTS {
        let instr = instr_of(form);
        let wanted = Effect {
            value,
            next,
            addr,
            stored,
            misaligned,
        };
        assert_same(
            &rt,
            &(instr, effect(PC, &instr, first, second)),
            &(instr, wanted),
        );
    }
}

// a7, a0, a1 and a2 of a call, the value with which it ends the run, its answer in a0, and how many bytes it puts out.
static CALLS: [(u32, u32, u32, u32, Option<u32>, u32, usize); 8] = [
    (64, 1, BASE, 4, None, 4, 4),
    (64, 2, BASE, 0xffff_ffff, None, 0xffff_fff2, 0), // 1024 bytes, of which memory has 64
    (64, 2, BASE + 60, 4, None, 4, 4),
    (64, 1, 0, 0, None, 0, 0),
    (64, 0, BASE, 4, None, 0xffff_fff7, 0),
    (63, 1, BASE, 4, None, 0xffff_ffda, 0),
    (93, 42, BASE, 4, Some(42), 42, 0),
    (94, 42, BASE, 4, Some(42), 42, 0),
];

// What a call with these numbers leaves, with memory whose first word is 0x7f80_ff01.
fn called(ram: &Ram, [a7, a0, a1, a2]: [u32; 4]) -> (Option<u32>, u32, u32, usize) {
    let mut pc = PC;
    let mut regs = [0u32; 32];
    regs[10] = a0;
    regs[11] = a1;
    regs[12] = a2;
    regs[17] = a7;
    let mut out = Piece::new();
    let ended = call(&mut pc, &mut regs, ram, &mut out);
    (ended, pc, regs[10], out.as_slice().len())
}

#[test]
fn calls_answer(rt: HostRuntime) -> Result<(), Fail> {
    let mut ram = Ram::new(rt.alloc(), BASE, SIZE, false)?;
    assert_same(&rt, &ram.put(BASE, Width::W, 0x7f80_ff01), &Ok(()));
    for &(a7, a0, a1, a2, ended, answer, count) in &CALLS {
        let got = called(&ram, [a7, a0, a1, a2]);
        assert_same(&rt, &(a7, a0, got), &(a7, a0, (ended, NEXT, answer, count)));
    }
    Ok(())
}
