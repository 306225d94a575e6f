//! How an instruction moves marks.
ghost use Rattle.std.specs.Prelude.{◌≡◌, ◌+◌, ◌-◌, ◌≤◌, false, get_or, length};
ghost use Rattle.elf_loader.specs.inner.Code.{instr_at};
ghost use Rattle.rv_types.specs.declared.Op.TheVariants.{Lw};
ghost use Rattle.secret_marks.specs.Results.{loaded_marks, result_marks};
ghost use Rattle.secret_marks.specs.Marks.{with_byte_marks};
ghost use Rattle.path_marks.specs.Moved.{InMemory, MovesAs, access_at, marks_after_access};

use crate::sources::access_at;
use isa_step::Isa;
use mark_words::{
    UNMARKED, any_byte, every_byte, lower_half, lowest_byte, result_marks, signed_half,
    write_memory, write_register,
};
use rv_types::{Instr, Op, REGISTERS, width_of};
use secret_marks::WordMarks;

// The mark of a byte of memory with this base, none outside it.
fn mark_of(bytes: &[bool], base: u32, a: u64) -> bool
    ensures { result ≡ get_or bytes.now (a - base) false }
{
    match bytes.get(a.saturating_sub(base as u64) as usize) {
        Some(mark) => *mark,
        None => false,
    }
}

// The marks of the four bytes from an address on.
fn word_of(bytes: &[bool], base: u32, addr: u32) -> WordMarks
    ensures { result ≡ loaded_marks Lw (λ b. get_or bytes.now (b - base) false) addr }
{
    let a = addr as u64;
    WordMarks {
        byte0: mark_of(bytes, base, a),
        byte1: mark_of(bytes, base, a + 1),
        byte2: mark_of(bytes, base, a + 2),
        byte3: mark_of(bytes, base, a + 3),
    }
}

// The marks of what is loaded by this operation from an address.
fn loaded(bytes: &[bool], base: u32, op: Op, addr: u32) -> WordMarks
    ensures { result ≡ loaded_marks op (λ b. get_or bytes.now (b - base) false) addr }
{
    match op {
        Op::Lb => every_byte(mark_of(bytes, base, addr as u64)),
        Op::Lbu => lowest_byte(mark_of(bytes, base, addr as u64)),
        Op::Lh => signed_half(word_of(bytes, base, addr)),
        Op::Lhu => lower_half(word_of(bytes, base, addr)),
        _ => word_of(bytes, base, addr),
    }
}

// The marks of an instruction's value, by those of its first and second source: none where those have none.
#[inline(always)]
fn value_marks(instr: &Instr, first: WordMarks, second: WordMarks) -> WordMarks
    ensures { result ≡ result_marks instr.now first second }
{
    if any_byte(first) | any_byte(second) {
        result_marks(instr, first, second)
    } else {
        UNMARKED
    }
}

// Gives `count` bytes of memory, from a position on, the marks of a word's lowest bytes, if memory has them all.
#[inline(always)]
fn store_marks(bytes: &mut Vec<bool>, at: usize, count: u32, marks: WordMarks)
    requires few { count ≤ 4 }
    ensures marks { at + count ≤ length bytes.old.items
        → bytes.new.items ≡ with_byte_marks bytes.old.items at count marks }
    ensures memory { length bytes.new.items ≡ length bytes.old.items }
{
    if at <= bytes.len() && count as usize <= bytes.len() - at {
        write_memory(bytes, at, count, marks);
    }
}

// Moves the marks as an instruction does, by the values of the registers before it and memory with this base. What a
// store does outside memory isn't said: it faults there.
#[inline(always)]
fn move_marks(
    regs: &mut [WordMarks; REGISTERS],
    bytes: &mut Vec<bool>,
    base: u32,
    values: &[u32; REGISTERS],
    instr: &Instr,
)
    ensures marks { InMemory base (access_at values.now instr.now) instr.now (length bytes.old.items)
        → record { regs = regs.new; bytes = bytes.new.items }
        ≡ marks_after_access base (access_at values.now instr.now) instr.now
        (record { regs = regs.old; bytes = bytes.old.items }) }
    ensures memory { length bytes.new.items ≡ length bytes.old.items }
{
    match *instr {
        Instr::Load { op, .. } => {
            let marks = loaded(bytes.as_slice(), base, op, access_at(values, instr));
            write_register(regs, instr, marks);
        }
        Instr::Store { op, rs2, .. } => {
            let at = access_at(values, instr).saturating_sub(base) as usize;
            store_marks(bytes, at, width_of(op).bytes(), regs[rs2.number as usize]);
        }
        Instr::Ecall => regs[10] = UNMARKED,
        Instr::OpImm { rs1, .. } => {
            let marks = value_marks(instr, regs[rs1.number as usize], UNMARKED);
            write_register(regs, instr, marks);
        }
        Instr::OpReg { rs1, rs2, .. } => {
            let marks = value_marks(instr, regs[rs1.number as usize], regs[rs2.number as usize]);
            write_register(regs, instr, marks);
        }
        _ => write_register(regs, instr, UNMARKED),
    }
}

/// Moves the marks as the next instruction does, if there is one.
#[inline(always)]
pub(crate) fn move_next(regs: &mut [WordMarks; REGISTERS], bytes: &mut Vec<bool>, isa: &Isa)
    ensures marks { MovesAs (instr_at isa.now.code isa.now.hart.pc) isa.now.hart
        (record { regs = regs.old; bytes = bytes.old.items }) (record { regs = regs.new; bytes = bytes.new.items }) }
    ensures memory { length bytes.new.items ≡ length bytes.old.items }
{
    if let Some(instr) = isa.instr() {
        move_marks(regs, bytes, isa.ram().base(), isa.regs(), &instr);
    }
}
