//! What an instruction is to the pipeline: its kind, its sources, its destination, and how much it moves.
ghost use Rattle.std.specs.Prelude.{◌≡◌, map, Option};
ghost use Rattle.std.specs.Option.{option_map};
ghost use Rattle.rv_types.specs.Regs.{reads_of, writes_of, two, unless_zero};
ghost use Rattle.rv_types.specs.Kind.{kind_of, op_kind};
ghost use Rattle.rv_types.specs.Value.{size_of, bytes_in};

use crate::{Cause, Instr, Kind, Op, Reg, Width};

/// The registers that the instruction reads, first source and second. Register 0 counts as one.
pub fn reads_of(instr: &Instr) -> [Option<Reg>; 2]
    ensures { map (option_map (λ r. r.number)) result ≡ two (reads_of instr.now) }
{
    match *instr {
        Instr::Jalr { rs1, .. } | Instr::Load { rs1, .. } | Instr::OpImm { rs1, .. } => {
            [Some(rs1), None]
        }
        Instr::Branch { rs1, rs2, .. }
        | Instr::Store { rs1, rs2, .. }
        | Instr::OpReg { rs1, rs2, .. } => [Some(rs1), Some(rs2)],
        _ => [None, None],
    }
}

/// The register that the instruction writes: none for register 0, and none for an ECALL.
pub fn writes_of(instr: &Instr) -> Option<Reg>
    ensures { option_map (λ r. r.number) result ≡ writes_of instr.now }
{
    let rd = match *instr {
        Instr::Lui { rd, .. }
        | Instr::Auipc { rd, .. }
        | Instr::Jal { rd, .. }
        | Instr::Jalr { rd, .. }
        | Instr::Load { rd, .. }
        | Instr::OpImm { rd, .. }
        | Instr::OpReg { rd, .. } => rd,
        _ => return None,
    };
    unless_zero(rd)
}

/// The register, where an instruction that names it writes it: register 0 is never written.
#[inline]
pub fn unless_zero(register: Reg) -> Option<Reg>
    ensures { option_map (λ r. r.number) result ≡ unless_zero register.number }
{
    if register.number == 0 {
        None
    } else {
        Some(register)
    }
}

// The kind of an arithmetic instruction.
fn op_kind(op: Op) -> Kind
    ensures { result ≡ op_kind op }
{
    match op {
        Op::Mul | Op::Mulh | Op::Mulhsu | Op::Mulhu => Kind::Mul,
        Op::Div | Op::Divu | Op::Rem | Op::Remu => Kind::Div,
        _ => Kind::Alu,
    }
}

/// The kind of the instruction. A JAL to an address that is no multiple of 4 can only trap: its own address is one, so
/// its immediate alone decides.
pub fn kind_of(instr: &Instr) -> Kind
    ensures { result ≡ kind_of instr.now }
{
    match *instr {
        Instr::Jal { imm, .. } => {
            if imm.cast_unsigned() % 4 == 0 {
                Kind::Jal
            } else {
                Kind::Stop(Cause::jump_misaligned())
            }
        }
        Instr::Jalr { .. } => Kind::Jalr,
        Instr::Branch { .. } => Kind::Branch,
        Instr::Load { .. } => Kind::Load,
        Instr::Store { .. } => Kind::Store,
        Instr::OpReg { op, .. } => op_kind(op),
        Instr::Ecall => Kind::Call,
        Instr::Ebreak => Kind::Stop(Cause::breakpoint()),
        Instr::Illegal(_) => Kind::Stop(Cause::illegal()),
        _ => Kind::Alu,
    }
}

/// How much a load or store with this operation moves (a byte for any other operation).
pub fn width_of(op: Op) -> Width
    ensures { bytes_in result ≡ size_of op }
{
    match op {
        Op::Lw | Op::Sw => Width::W,
        Op::Lh | Op::Lhu | Op::Sh => Width::H,
        _ => Width::B,
    }
}
