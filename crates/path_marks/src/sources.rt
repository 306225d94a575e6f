//! The marks of an instruction's sources, and the address that it accesses.
ghost use Rattle.std.specs.Prelude.{◌≡◌};
ghost use Rattle.rv_types.specs.Regs.{reads_of};
ghost use Rattle.constant_time.specs.PathMarks.{first_mark, second_mark};
ghost use Rattle.path_marks.specs.Moved.{access_at};

use mark_words::UNMARKED;
use rv_effect::relative;
use rv_types::{Instr, REGISTERS};
use secret_marks::WordMarks;

/// The marks of the first source, none where there is no source.
pub(crate) fn first_source(regs: &[WordMarks; REGISTERS], instr: &Instr) -> WordMarks
    ensures { result ≡ first_mark (reads_of instr.now) regs.now }
{
    match *instr {
        Instr::Jalr { rs1, .. }
        | Instr::Branch { rs1, .. }
        | Instr::Load { rs1, .. }
        | Instr::Store { rs1, .. }
        | Instr::OpImm { rs1, .. }
        | Instr::OpReg { rs1, .. } => regs[rs1.number as usize],
        _ => UNMARKED,
    }
}

/// The marks of the second source, none where there is none.
pub(crate) fn second_source(regs: &[WordMarks; REGISTERS], instr: &Instr) -> WordMarks
    ensures { result ≡ second_mark (reads_of instr.now) regs.now }
{
    match *instr {
        Instr::Branch { rs2, .. } | Instr::Store { rs2, .. } | Instr::OpReg { rs2, .. } => {
            regs[rs2.number as usize]
        }
        _ => UNMARKED,
    }
}

/// The address that a load or store accesses, 0 for any other instruction.
pub(crate) fn access_at(regs: &[u32; REGISTERS], instr: &Instr) -> u32
    ensures { result ≡ access_at regs.now instr.now }
{
    match *instr {
        Instr::Load { rs1, imm, .. } => relative(regs[rs1.number as usize], imm),
        Instr::Store { rs1, imm, .. } => relative(regs[rs1.number as usize], imm),
        _ => 0,
    }
}
