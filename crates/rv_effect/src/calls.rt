//! The system calls, which are this project's own (`docs/instruction-set.md`, "System calls"): the number in a7,
//! arguments from a0 on, the answer in a0.
ghost use Rattle.std.specs.Prelude.{◌≡◌, ◌≤◌, [], IfSome, slice_set};
ghost use Rattle.rv_types.specs.Isa.{call, write_of, Goes};
ghost use Rattle.rv_types.specs.Word.{word_add};
ghost use Rattle.rv_effect.specs.Called.{stepped_as};

use byte_ram::Ram;
use rv_types::{PIECE_MAX, Piece, REGISTERS};

// The registers of the arguments, of which the first takes the answer, and of the number.
const FIRST: usize = 10;

const SECOND: usize = 11;

const THIRD: usize = 12;

const NUMBER: usize = 17;

// The numbers of the calls.
const WRITE: u32 = 64;

const EXIT: u32 = 93;

const EXIT_GROUP: u32 = 94;

// The streams that a write call may name.
const OUTPUT: u32 = 1;

const ERROR: u32 = 2;

// The answers of calls that fail, as words of negative numbers: -9, -14 and -38.
const BAD_STREAM: u32 = 0xffff_fff7;

const BAD_ADDRESS: u32 = 0xffff_fff2;

const NO_SUCH_CALL: u32 = 0xffff_ffda;

// Goes on behind a call, with its answer.
fn answer(pc: &mut u32, regs: &mut [u32; REGISTERS], value: u32)
    ensures pc { pc.new ≡ word_add pc.old 4 }
    ensures regs { regs.new ≡ slice_set regs.old 10 value }
{
    *pc = pc.wrapping_add(4);
    regs[FIRST] = value;
}

// Puts the bytes from an address on out.
fn write(
    pc: &mut u32,
    regs: &mut [u32; REGISTERS],
    ram: &Ram,
    from: u32,
    count: u32,
    out: &mut Piece,
)
    requires empty { out.old ≡ [] }
    requires few { count ≤ 1024 }
    ensures { Goes (record { pc = pc.new; regs = regs.new; ram = ram.now }) out.new
        ≡ write_of (record { pc = pc.old; regs = regs.old; ram = ram.now }) from count }
{
    if count == 0 {
        answer(pc, regs, 0);
        return;
    }
    if !ram.holds(from, count) {
        answer(pc, regs, BAD_ADDRESS);
        return;
    }
    let at = (from - ram.base()) as usize;
    out.extend(&ram.bytes()[at..at + count as usize]);
    answer(pc, regs, count);
}

/// An ECALL on pc, the registers and memory: it goes on behind the call with the answer in a0, or the run ends with the
/// value that is answered. `out` holds the bytes that a write call puts out, else none.
pub fn call(pc: &mut u32, regs: &mut [u32; REGISTERS], ram: &Ram, out: &mut Piece) -> Option<u32>
    requires { out.old ≡ [] }
    ensures stepped { stepped_as (record { pc = pc.new; regs = regs.new; ram = ram.now }) out.new result
        ≡ call (record { pc = pc.old; regs = regs.old; ram = ram.now }) }
    ensures exit { IfSome result (λ v. out.new ≡ []) }
{
    let number = regs[NUMBER];
    let first = regs[FIRST];
    if number == EXIT || number == EXIT_GROUP {
        *pc = pc.wrapping_add(4);
        return Some(first);
    }
    if number != WRITE {
        answer(pc, regs, NO_SUCH_CALL);
        return None;
    }
    if first != OUTPUT && first != ERROR {
        answer(pc, regs, BAD_STREAM);
        return None;
    }
    let from = regs[SECOND];
    let count = regs[THIRD].min(PIECE_MAX as u32);
    write(pc, regs, ram, from, count, out);
    None
}
