//! Marks of registers, and what a call shows of them.
ghost use Rattle.std.specs.Prelude.{◌≡◌, ◌<◌, get_or};
ghost use Rattle.rv_types.specs.Regs.{writes_of};
ghost use Rattle.window_model.specs.State.{Machine};
ghost use Rattle.secret_marks.specs.Marks.{Marks, with_marks};
ghost use Rattle.secret_marks.specs.Shows.{call_shows};
ghost use Rattle.secret_marks.specs.Words.{any_byte, unmarked};

use crate::words::any_byte;
use rv_types::{Instr, REGISTERS, writes_of};
use secret_marks::WordMarks;

/// Gives the register that an instruction writes these marks, if there is one.
#[inline]
pub fn write_register(regs: &mut [WordMarks; REGISTERS], instr: &Instr, marks: WordMarks)
    ensures { regs.new ≡ with_marks regs.old (writes_of instr.now) marks }
{
    if let Some(register) = writes_of(instr) {
        regs[register.number as usize] = marks;
    }
}

// Whether some byte of a register is marked.
fn is_marked(marks: &[WordMarks; REGISTERS], r: u32) -> bool
    requires { r < 32 }
    ensures { result ≡ any_byte (get_or marks.now r unmarked) }
{
    any_byte(marks[r as usize])
}

/// Whether a call shows, by the registers and their marks: its number, the value of an exit, or stream, address or
/// length of a write is marked.
pub fn call_shows(regs: &[u32; REGISTERS], marks: &[WordMarks; REGISTERS]) -> bool
    ensures { (x : Machine) (m : Marks)
        → result ≡ call_shows (record x { regs = regs.now }) (record m { regs = marks.now }) }
{
    if is_marked(marks, 17) {
        return true;
    }
    let a7 = regs[17];
    if a7 == 93 || a7 == 94 {
        return is_marked(marks, 10);
    }
    a7 == 64 && (is_marked(marks, 10) || is_marked(marks, 11) || is_marked(marks, 12))
}
