//! What shows of marks in a step.
ghost use Rattle.std.specs.Prelude.{◌≡◌};
ghost use Rattle.rv_types.specs.Isa.{Hart};
ghost use Rattle.constant_time.specs.PathMarks.{asks_marked, shows_as};

use crate::sources::{first_source, second_source};
use mark_words::{any_byte, call_shows, either};
use rv_types::{Instr, Kind, REGISTERS};
use secret_marks::WordMarks;

// Whether what a call is asked for is marked.
fn asks_marked(regs: &[u32; REGISTERS], marks: &[WordMarks; REGISTERS]) -> bool
    ensures { result ≡ asks_marked regs.now marks.now }
{
    call_shows(regs, marks)
}

/// Whether what an instruction of a kind leaks is marked.
pub(crate) fn shows_as(
    kind: Kind,
    regs: &[u32; REGISTERS],
    marks: &[WordMarks; REGISTERS],
    instr: &Instr,
) -> bool
    ensures { (s : Hart) → result ≡ shows_as kind (record s { regs = regs.now }) instr.now marks.now }
{
    match kind {
        Kind::Load | Kind::Store | Kind::Div => any_byte(first_source(marks, instr)),
        Kind::Branch | Kind::Jalr => any_byte(either(
            first_source(marks, instr),
            second_source(marks, instr),
        )),
        Kind::Call => asks_marked(regs, marks),
        _ => false,
    }
}
