//! The step: one choice among the operations as they were decoded when the image was loaded.
ghost use Rattle.std.specs.Prelude.{◌≡◌, []};
ghost use Rattle.rv_types.specs.Isa.{isa_step, step_of};
ghost use Rattle.rv_decode.specs.Operations.{instr_of};
ghost use Rattle.elf_loader.specs.inner.Code.{word_at};
ghost use Rattle.isa_step.specs.Outcome.{outcome};

use crate::state::Isa;
use crate::stepped::Stepped;
use rv_decode::Operation;
use rv_types::{Cause, Instr, Op, Piece};

impl Isa {
    // Performs an operation at pc that isn't among the most frequent, for this instruction.
    fn perform_other(&mut self, operation: Operation, instr: Instr, out: &mut Piece) -> Stepped
        requires stands { instr_of operation instr ≡ instr }
        requires empty { out.old ≡ [] }
        ensures stepped { record { hart = self.new.hart; piece = out.new; stepped = result }
            ≡ outcome self.old.hart (step_of self.old.hart (instr_of operation instr)) }
        ensures code { self.new.code ≡ self.old.code }
    {
        match operation {
            Operation::Sb(rs1, rs2, imm) => self.store_to(Op::Sb, rs1, rs2, imm),
            Operation::Sh(rs1, rs2, imm) => self.store_to(Op::Sh, rs1, rs2, imm),
            Operation::Sw(rs1, rs2, imm) => self.store_to(Op::Sw, rs1, rs2, imm),
            Operation::Add(rd, rs1, rs2) => self.op_reg(Op::Add, rd, rs1, rs2),
            Operation::Sub(rd, rs1, rs2) => self.op_reg(Op::Sub, rd, rs1, rs2),
            Operation::Sll(rd, rs1, rs2) => self.op_reg(Op::Sll, rd, rs1, rs2),
            Operation::Slt(rd, rs1, rs2) => self.op_reg(Op::Slt, rd, rs1, rs2),
            Operation::Sltu(rd, rs1, rs2) => self.op_reg(Op::Sltu, rd, rs1, rs2),
            Operation::Xor(rd, rs1, rs2) => self.op_reg(Op::Xor, rd, rs1, rs2),
            Operation::Srl(rd, rs1, rs2) => self.op_reg(Op::Srl, rd, rs1, rs2),
            Operation::Sra(rd, rs1, rs2) => self.op_reg(Op::Sra, rd, rs1, rs2),
            Operation::Or(rd, rs1, rs2) => self.op_reg(Op::Or, rd, rs1, rs2),
            Operation::And(rd, rs1, rs2) => self.op_reg(Op::And, rd, rs1, rs2),
            Operation::Mul(rd, rs1, rs2) => self.op_reg(Op::Mul, rd, rs1, rs2),
            Operation::Mulh(rd, rs1, rs2) => self.op_reg(Op::Mulh, rd, rs1, rs2),
            Operation::Mulhsu(rd, rs1, rs2) => self.op_reg(Op::Mulhsu, rd, rs1, rs2),
            Operation::Mulhu(rd, rs1, rs2) => self.op_reg(Op::Mulhu, rd, rs1, rs2),
            Operation::Div(rd, rs1, rs2) => self.op_reg(Op::Div, rd, rs1, rs2),
            Operation::Divu(rd, rs1, rs2) => self.op_reg(Op::Divu, rd, rs1, rs2),
            Operation::Rem(rd, rs1, rs2) => self.op_reg(Op::Rem, rd, rs1, rs2),
            Operation::Remu(rd, rs1, rs2) => self.op_reg(Op::Remu, rd, rs1, rs2),
            _ => self.execute(instr, out),
        }
    }

    // Performs an operation at pc, for this instruction.
    #[inline]
    fn perform(&mut self, operation: Operation, instr: Instr, out: &mut Piece) -> Stepped
        requires stands { instr_of operation instr ≡ instr }
        requires empty { out.old ≡ [] }
        ensures stepped { record { hart = self.new.hart; piece = out.new; stepped = result }
            ≡ outcome self.old.hart (step_of self.old.hart (instr_of operation instr)) }
        ensures code { self.new.code ≡ self.old.code }
    {
        match operation {
            Operation::Lui(rd, imm) => self.lui(rd, imm),
            Operation::Auipc(rd, imm) => self.auipc(rd, imm),
            Operation::Jal(rd, imm) => self.jal(rd, imm),
            Operation::Jalr(rd, rs1, imm) => self.jalr(rd, rs1, imm),
            Operation::Beq(rs1, rs2, imm) => self.branch_if(Op::Beq, rs1, rs2, imm),
            Operation::Bne(rs1, rs2, imm) => self.branch_if(Op::Bne, rs1, rs2, imm),
            Operation::Blt(rs1, rs2, imm) => self.branch_if(Op::Blt, rs1, rs2, imm),
            Operation::Bge(rs1, rs2, imm) => self.branch_if(Op::Bge, rs1, rs2, imm),
            Operation::Bltu(rs1, rs2, imm) => self.branch_if(Op::Bltu, rs1, rs2, imm),
            Operation::Bgeu(rs1, rs2, imm) => self.branch_if(Op::Bgeu, rs1, rs2, imm),
            Operation::Lb(rd, rs1, imm) => self.load_from(Op::Lb, rd, rs1, imm),
            Operation::Lh(rd, rs1, imm) => self.load_from(Op::Lh, rd, rs1, imm),
            Operation::Lw(rd, rs1, imm) => self.load_from(Op::Lw, rd, rs1, imm),
            Operation::Lbu(rd, rs1, imm) => self.load_from(Op::Lbu, rd, rs1, imm),
            Operation::Lhu(rd, rs1, imm) => self.load_from(Op::Lhu, rd, rs1, imm),
            Operation::AddImm(rd, rs1, imm) => self.op_imm(Op::Add, rd, rs1, imm),
            Operation::SllImm(rd, rs1, imm) => self.op_imm(Op::Sll, rd, rs1, imm),
            Operation::SltImm(rd, rs1, imm) => self.op_imm(Op::Slt, rd, rs1, imm),
            Operation::SltuImm(rd, rs1, imm) => self.op_imm(Op::Sltu, rd, rs1, imm),
            Operation::XorImm(rd, rs1, imm) => self.op_imm(Op::Xor, rd, rs1, imm),
            Operation::SrlImm(rd, rs1, imm) => self.op_imm(Op::Srl, rd, rs1, imm),
            Operation::SraImm(rd, rs1, imm) => self.op_imm(Op::Sra, rd, rs1, imm),
            Operation::OrImm(rd, rs1, imm) => self.op_imm(Op::Or, rd, rs1, imm),
            Operation::AndImm(rd, rs1, imm) => self.op_imm(Op::And, rd, rs1, imm),
            _ => self.perform_other(operation, instr, out),
        }
    }

    /// One step. The piece is cleared first, and then holds what the step puts out: the bytes of a write call, else
    /// nothing. A trap changes nothing else.
    #[tactic(auto, using(crate::proofs::Steps::step_there, crate::proofs::Steps::nothing_there), unfolding(rv_types::specs::Isa::isa_step))]
    pub fn step(&mut self, out: &mut Piece) -> Stepped
        ensures stepped { record { hart = self.new.hart; piece = out.new; stepped = result }
            ≡ outcome self.old.hart (isa_step (word_at self.old.code) self.old.hart) }
        ensures code { self.new.code ≡ self.old.code }
    {
        out.clear();
        match self.code.decoded(self.pc) {
            Some(decoded) => self.perform(decoded.operation, decoded.instr, out),
            None => Stepped::Trap(Cause::outside_code()),
        }
    }
}
