//! Runs of a core, cycle by cycle: their traces and their reports. They take no memory.
ghost use Rattle.std.specs.Prelude.{◌≡◌, ◌<◌, ◌+◌, ◌^◌, length, Some};
ghost use Rattle.machine_facts.specs.Sized.{Sized};
ghost use Rattle.pair_run.specs.Running.{ending_at};
ghost use Rattle.stt_top.specs.inner.Clocking.{WritesRows, WritesPieces, TellsTrace, TellsReport};

use crate::outcome::{Ended, ended_of};
use byte_ram::Ram;
use line_text::Draft;
use report_text::{write_piece, write_report};
use rv_types::{Ending, Piece};
use tool_io::{Failed, Sink};
use trace_text::{write_end, write_row_with};
use window_model::{Clocked, empty_row};

// Runs at most so many cycles, and writes the row of each by one put.
fn write_rows<C: Clocked, S: Sink>(core: &mut C, cycles: u32, out: &mut S) -> Result<(), Failed>
    requires few { (C.machine core.old).cycle + cycles < 2 ^ 32 }
    ensures { WritesRows (C.desc core.old) (C.code core.old) cycles (C.machine core.old) (C.machine core.new)
        (S.told out.old) (S.told out.new) result }
{
    let mut row = empty_row();
    let mut piece = Piece::new();
    let mut draft = Draft::new();
    for _done in 0..cycles {
        if core.end().is_some() {
            return Ok(());
        }
        core.cycle(&mut row, &mut piece);
        write_row_with(&row, &mut draft, out)?;
    }
    Ok(())
}

// Runs at most so many cycles, and writes the output of each as it comes.
fn write_pieces<C: Clocked, S: Sink>(core: &mut C, cycles: u32, out: &mut S) -> Result<(), Failed>
    requires few { (C.machine core.old).cycle + cycles < 2 ^ 32 }
    ensures { WritesPieces (C.desc core.old) (C.code core.old) cycles (C.machine core.old) (C.machine core.new)
        (S.told out.old) (S.told out.new) result }
{
    let mut row = empty_row();
    let mut piece = Piece::new();
    for _done in 0..cycles {
        if core.end().is_some() {
            return Ok(());
        }
        core.cycle(&mut row, &mut piece);
        write_piece(&piece, out)?;
    }
    Ok(())
}

fn ending_at<C: Clocked>(core: &C) -> Ending
    ensures { result ≡ ending_at (C.machine core.now) }
{
    Ending {
        end: core.end(),
        retired: core.retired(),
        cycles: Some(core.cycles()),
    }
}

/// Runs a core for at most so many cycles and writes the trace, one put a line. Error: `Failed`, only where the sink's
/// count of faults rose; then a part of the trace was written.
pub(crate) fn trace<C: Clocked, S: Sink>(
    core: &mut C,
    cycles: u32,
    out: &mut S,
) -> Result<Ended, Failed>
    requires few { (C.machine core.old).cycle + cycles < 2 ^ 32 }
    ensures { TellsTrace (C.desc core.old) (C.code core.old) cycles (C.machine core.old)
        (S.told out.old) (S.told out.new) result }
{
    match write_rows(core, cycles, out) {
        Ok(()) => {}
        Err(failed) => return Err(failed),
    }
    match write_end(&ending_at(core), out) {
        Ok(()) => Ok(ended_of(core.end())),
        Err(unwritten) => Err(unwritten),
    }
}

/// Runs a core for at most so many cycles and writes the report, one put a line; `before` is memory as it was when the
/// run began. Error: `Failed`, only where the sink's count of faults rose; then a part of the report was written.
pub(crate) fn report<C: Clocked, S: Sink>(
    core: &mut C,
    before: &Ram,
    cycles: u32,
    out: &mut S,
) -> Result<Ended, Failed>
    requires few { (C.machine core.old).cycle + cycles < 2 ^ 32 }
    requires sized { Sized (C.desc core.old) (C.machine core.old) }
    requires base { before.now.base ≡ (C.machine core.old).ram.base }
    requires size { length before.now.bytes ≡ length (C.machine core.old).ram.bytes }
    ensures { TellsReport before.now (C.desc core.old) (C.code core.old) cycles (C.machine core.old)
        (S.told out.old) (S.told out.new) result }
{
    match write_pieces(core, cycles, out) {
        Ok(()) => {}
        Err(failed) => return Err(failed),
    }
    let ending = ending_at(core);
    match write_report(core.regs(), core.pc(), before, core.ram(), &ending, out) {
        Ok(()) => Ok(ended_of(core.end())),
        Err(failed) => Err(failed),
    }
}
