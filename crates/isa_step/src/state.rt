//! The state: pc, registers and memory, and the words that may be fetched.
ghost use Rattle.std.specs.Prelude.{◌≡◌};
ghost use Rattle.elf_loader.specs.inner.Code.{instr_at};
ghost use Rattle.rv_types.specs.Isa.{reg, relative, start, with_reg};
ghost use Rattle.rv_types.specs.Regs.{unless_zero};

use byte_ram::Ram;
use elf_loader::{Code, Image};
use rv_effect::{relative, write_reg};
use rv_types::{Instr, REGISTERS, Reg, SP, STACK_GAP, unless_zero};
use std::marker::Model;

/// The machine of the instruction set, seen as its code and its state. It takes no memory of its own.
#[derive(Drop)]
pub struct Isa {
    pub(crate) pc: u32,
    pub(crate) regs: [u32; REGISTERS],
    pub(crate) ram: Ram,
    pub(crate) code: Code,
}

impl Model for Isa {
    ghost use Rattle.isa_step.specs.State.{IsaState};

    ghost Value = { IsaState };

    ghost view = { λ s. record { code = s.code; hart = record { pc = s.pc; regs = s.regs; ram = s.ram } } };
}

impl Isa {
    /// The state in which an image begins: pc is the entry, x2 is 16 bytes below memory's end, all other registers are
    /// 0.
    pub fn new(image: Image) -> Isa
        ensures { result ≡ record { code = image.code; hart = start image.entry image.ram } }
    {
        let Image { ram, code, entry } = image;
        let mut regs = [0u32; REGISTERS];
        regs[SP] = (ram.base() as u64 + ram.size() as u64 - STACK_GAP) as u32;
        Isa {
            pc: entry,
            regs,
            ram,
            code,
        }
    }

    /// The address of the next instruction.
    pub fn pc(&self) -> u32
        ensures { result ≡ self.now.hart.pc }
    {
        self.pc
    }

    /// The instruction that the next step executes, None exactly where no word may be fetched.
    pub fn instr(&self) -> Option<Instr>
        ensures { result ≡ instr_at self.now.code self.now.hart.pc }
    {
        self.code.instr(self.pc)
    }

    /// The registers of the instruction set's state.
    pub fn regs(&self) -> &[u32; REGISTERS]
        ensures { result.now ≡ self.now.hart.regs }
    {
        &self.regs
    }

    /// The memory of the instruction set's state.
    pub fn ram(&self) -> &Ram
        ensures { result.now ≡ self.now.hart.ram }
    {
        &self.ram
    }

    // The value of a register.
    #[inline]
    pub(crate) fn reg(&self, register: Reg) -> u32
        ensures { result ≡ reg self.now.hart.regs register.number }
    {
        self.regs[register.number as usize]
    }

    // The value of a register, and an offset added to it.
    #[inline]
    pub(crate) fn address(&self, base: Reg, offset: i32) -> u32
        ensures { result ≡ relative (reg self.now.hart.regs base.number) offset }
    {
        relative(self.reg(base), offset)
    }

    // An offset added to pc.
    #[inline]
    pub(crate) fn relative(&self, offset: i32) -> u32
        ensures { result ≡ relative self.now.hart.pc offset }
    {
        relative(self.pc, offset)
    }

    // Goes on at an address, with a register written.
    #[inline]
    pub(crate) fn go_on(&mut self, rd: Reg, value: u32, next: u32)
        ensures { self.new ≡ record self.old {
          hart = record self.old.hart {
            pc = next;
            regs = with_reg self.old.hart.regs (unless_zero rd.number) value;
          };
        } }
    {
        write_reg(&mut self.regs, unless_zero(rd), value);
        self.pc = next;
    }
}
