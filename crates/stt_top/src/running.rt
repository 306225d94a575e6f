//! A run of the instruction set whose output is written as it comes, and its report.
ghost use Rattle.std.specs.Prelude.{◌≡◌, length};
ghost use Rattle.rv_types.specs.Isa.{isa};
ghost use Rattle.elf_loader.specs.inner.Code.{word_at};
ghost use Rattle.stt_top.specs.inner.Running.{WritesOutput, TellsRun};

use crate::loading::IsaRun;
use crate::outcome::{Ended, ended_of};
use isa_step::{Isa, Ran, Stepped};
use report_text::{write_piece, write_report};
use rv_types::{End, Ending, Piece};
use tool_io::{Failed, Sink};

// Runs at most so many steps, and writes the output of each as it comes.
fn run<S: Sink>(state: &mut Isa, steps: u64, out: &mut S) -> Result<Ran, Failed>
    ensures { WritesOutput (isa (word_at state.old.code) state.old.hart steps) state.new.hart
        (S.told out.old) (S.told out.new) result }
{
    let mut piece = Piece::new();
    for done in 0..steps {
        match state.step(&mut piece) {
            Stepped::Next => write_piece(&piece, out)?,
            Stepped::Exit(value) => {
                return Ok(Ran {
                    taken: done + 1,
                    ended: Some(End::Exit(value)),
                });
            }
            Stepped::Trap(cause) => {
                return Ok(Ran {
                    taken: done,
                    ended: Some(End::Trap(cause, state.pc())),
                });
            }
        }
    }
    Ok(Ran {
        taken: steps,
        ended: None,
    })
}

/// Runs the instruction set for at most so many steps and writes the report, one put a line. It takes no memory. Error:
/// `Failed`, only where the sink's count of faults rose; then a part of the report was written.
pub(crate) fn report<S: Sink>(
    started: &mut IsaRun,
    steps: u64,
    out: &mut S,
) -> Result<Ended, Failed>
    requires base { started.old.before.base ≡ started.old.isa.hart.ram.base }
    requires size { length started.old.before.bytes ≡ length started.old.isa.hart.ram.bytes }
    ensures { TellsRun started.old.before (isa (word_at started.old.isa.code) started.old.isa.hart steps)
        (S.told out.old) (S.told out.new) result }
{
    let ran = match run(&mut started.isa, steps, out) {
        Ok(ran) => ran,
        Err(failed) => return Err(failed),
    };
    let ending = Ending {
        end: ran.ended,
        retired: ran.taken,
        cycles: None,
    };
    let isa = &started.isa;
    match write_report(
        isa.regs(),
        isa.pc(),
        &started.before,
        isa.ram(),
        &ending,
        out,
    ) {
        Ok(()) => Ok(ended_of(ran.ended)),
        Err(failed) => Err(failed),
    }
}
