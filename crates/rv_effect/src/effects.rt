//! What each instruction makes of its sources (RISC-V unprivileged manual, chapters RV32I and M).
ghost use Rattle.std.specs.Prelude.{◌≡◌, if◌then◌else◌};
ghost use Rattle.rv_types.specs.Isa.{at_address, effect, is_misaligned, jump, only, relative};
ghost use Rattle.rv_effect.specs.Seen.{isa_effect};

use crate::fields::Effect;
use rv_alu::{taken, value};
use rv_types::Instr;

/// The address that lies so far from this one.
#[inline]
pub fn relative(address: u32, offset: i32) -> u32
    ensures { result ≡ relative address offset }
{
    address.wrapping_add(offset.cast_unsigned())
}

/// Whether no instruction stands at a jump's target, since it is no multiple of 4.
#[inline]
pub fn is_misaligned(target: u32) -> bool
    ensures { result ≡ is_misaligned target }
{
    target % 4 != 0
}

// Computes a value, and goes on behind the instruction.
#[inline]
fn only(pc: u32, value: u32) -> Effect
    ensures { isa_effect result ≡ only pc value }
{
    Effect {
        value,
        next: pc.wrapping_add(4),
        addr: 0,
        stored: 0,
        misaligned: false,
    }
}

// Jumps, with a value for the register that keeps the return address.
#[inline]
fn jump(value: u32, target: u32) -> Effect
    ensures { isa_effect result ≡ jump value target }
{
    Effect {
        value,
        next: target,
        addr: 0,
        stored: 0,
        misaligned: is_misaligned(target),
    }
}

// Branches, or goes on behind the branch.
#[inline]
fn branch(pc: u32, is_taken: bool, target: u32) -> Effect
    ensures { isa_effect result ≡ (if is_taken then jump 1 target else only pc 0) }
{
    if is_taken {
        return jump(1, target);
    }
    only(pc, 0)
}

// Accesses an address, to store a value where it is a store.
#[inline]
fn access(pc: u32, addr: u32, stored: u32) -> Effect
    ensures { isa_effect result ≡ at_address pc addr stored }
{
    Effect {
        value: 0,
        next: pc.wrapping_add(4),
        addr,
        stored,
        misaligned: false,
    }
}

/// The effect of an instruction at this pc whose first source holds `first` and whose second holds `second`; what it
/// doesn't read isn't looked at. What may only trap, and a system call, compute 0 and go on.
#[inline(always)]
pub fn effect(pc: u32, instr: &Instr, first: u32, second: u32) -> Effect
    ensures { isa_effect result ≡ effect pc instr.now first second }
{
    match *instr {
        Instr::Lui { imm, .. } => only(pc, imm.cast_unsigned()),
        Instr::Auipc { imm, .. } => only(pc, relative(pc, imm)),
        Instr::Jal { imm, .. } => jump(pc.wrapping_add(4), relative(pc, imm)),
        Instr::Jalr { imm, .. } => jump(pc.wrapping_add(4), relative(first, imm) / 2 * 2),
        Instr::Branch { op, imm, .. } => { branch(pc, taken(op, first, second), relative(pc, imm)) }
        Instr::Load { imm, .. } => access(pc, relative(first, imm), 0),
        Instr::Store { imm, .. } => access(pc, relative(first, imm), second),
        Instr::OpImm { op, imm, .. } => only(pc, value(op, first, imm.cast_unsigned())),
        Instr::OpReg { op, .. } => only(pc, value(op, first, second)),
        Instr::Fence(_) | Instr::Ecall | Instr::Ebreak | Instr::Illegal(_) => only(pc, 0),
    }
}
