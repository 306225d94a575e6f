//! What is told of a core's run (`docs/formats.md`, "The program stt_stats").
ghost use Rattle.std.specs.Prelude.{◌≡◌, ◌<◌, ◌+◌, ◌^◌, ◌++◌, option_map};
ghost use Rattle.elf_loader.specs.inner.Code.{word_at};
ghost use Rattle.line_text.specs.EndLine.{end_line};
ghost use Rattle.pair_run.specs.Running.{ending_at};
ghost use Rattle.tool_io.specs.Outside.{Writes};
ghost use Rattle.stats_top.specs.Stats.{all_lines};
ghost use Rattle.stats_top.specs.inner.Counting.{Sound, TellsStats};

use crate::counting::count_run;
use crate::lines::all_lines;
use crate::numbers::Numbers;
use core_cycle::Core;
use line_text::write_end;
use machine_desc::Desc;
use rename_taint::RenameTaint;
use rv_types::{End, Ending};
use stats_words::Every;
use tool_io::{Failed, Sink};
use window_model::Clocked;

fn ending_at<C: Clocked>(core: &C) -> Ending
    ensures { result ≡ ending_at (C.machine core.now) }
{
    Ending {
        end: core.end(),
        retired: core.retired(),
        cycles: Some(core.cycles()),
    }
}

// The lines of the numbers, by one put, and then the last line.
fn write_last<S: Sink>(numbers: &Numbers, ending: &Ending, out: &mut S) -> Result<(), Failed>
    ensures { Writes (all_lines numbers.now ++ end_line ending.now) (S.told out.old) (S.told out.new) result }
{
    out.put(all_lines(numbers).as_slice())?;
    write_end(ending, out)
}

/// Runs a core for at most so many cycles and writes what is counted. Error: `Failed`, only where the sink's count of
/// faults rose; then a part of the text was written.
pub(crate) fn write_stats<R: RenameTaint, S: Sink>(
    core: &mut Core<R>,
    desc: &Desc,
    cycles: u32,
    every: Option<Every>,
    out: &mut S,
) -> Result<Option<End>, Failed>
    requires desc { desc.now ≡ core.old.desc }
    requires sound { Sound core.old.desc core.old.machine }
    requires few { core.old.machine.cycle + cycles < 2 ^ 32 }
    ensures { TellsStats (option_map (λ k. k.cycles) every) core.old.desc (word_at core.old.code) cycles
        core.old.machine (S.told out.old) (S.told out.new) result }
{
    let numbers = count_run(core, desc, cycles, every, out)?;
    write_last(&numbers, &ending_at(core), out)?;
    Ok(core.end())
}
