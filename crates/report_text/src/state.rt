//! The state at a run's end: registers, pc, the rows of memory that changed, and the last line.
ghost use Rattle.std.specs.Prelude.{◌≡◌, ◌<◌, length};
ghost use Rattle.tool_io.specs.Outside.{Writes};
ghost use Rattle.report_text.specs.Report.{register_line, register_lines, pc_line, state_text};

use crate::rows::write_rows;
use byte_ram::Ram;
use line_text::{Line, write_end};
use rv_types::{Ending, REGISTERS};
use tool_io::{Failed, Sink};

#[tactic(auto, unfolding(crate::specs::Report::register_line))]
fn fill_register(line: &mut Line, number: usize, value: u32)
    ensures { line.new ≡ register_line number value }
{
    line.clear();
    line.add(b"x");
    line.add_decimal(number as u64);
    line.add(b" ");
    line.add_hex8(value);
    line.add(b"\n");
}

#[tactic(auto, unfolding(crate::specs::Report::pc_line))]
fn fill_pc(line: &mut Line, pc: u32)
    ensures { line.new ≡ pc_line pc }
{
    line.clear();
    line.add(b"pc ");
    line.add_hex8(pc);
    line.add(b"\n");
}

fn write_register<S: Sink>(
    number: usize,
    value: u32,
    line: &mut Line,
    out: &mut S,
) -> Result<(), Failed>
    ensures { Writes (register_line number value) (S.told out.old) (S.told out.new) result }
{
    fill_register(line, number, value);
    out.put(line.as_slice())
}

fn write_pc<S: Sink>(pc: u32, line: &mut Line, out: &mut S) -> Result<(), Failed>
    ensures { Writes (pc_line pc) (S.told out.old) (S.told out.new) result }
{
    fill_pc(line, pc);
    out.put(line.as_slice())
}

fn write_registers<S: Sink>(regs: &[u32], line: &mut Line, out: &mut S) -> Result<(), Failed>
    requires { length regs.now ≡ 32 }
    ensures { Writes (register_lines regs.now) (S.told out.old) (S.told out.new) result }
{
    for number in 0..REGISTERS {
        write_register(number, regs[number], line, out)?;
    }
    Ok(())
}

/// Writes what a report says after the output: the registers, the pc, each row of memory that differs from memory
/// before, by rising address, and the last line; one put a line. `regs` are the registers by number; both memories have
/// one base and one size. Error: `Failed`, only where the sink's count of faults rose; then a prefix of the text was
/// appended, maybe none of it.
pub fn write_report<S: Sink>(
    regs: &[u32; REGISTERS],
    pc: u32,
    before: &Ram,
    after: &Ram,
    ending: &Ending,
    out: &mut S,
) -> Result<(), Failed>
    requires base { before.now.base ≡ after.now.base }
    requires size { length before.now.bytes ≡ length after.now.bytes }
    ensures { Writes (state_text (record { pc = pc; regs = regs.now; ram = after.now }) before.now ending.now)
        (S.told out.old) (S.told out.new) result }
{
    let mut line = Line::new();
    write_registers(regs, &mut line, out)?;
    write_pc(pc, &mut line, out)?;
    write_rows(before, after, &mut line, out)?;
    write_end(ending, out)
}
