//! What a run comes to. All memory is taken before its first cycle, and nothing is written before.
ghost use Rattle.std.specs.Prelude.{option_map};
ghost use Rattle.run_inputs.specs.Loaded.{Fits, image_text};
ghost use Rattle.stats_top.specs.inner.Top.{Performs};

use crate::stats::write_stats;
use core_cycle::Core;
use rename_taint::ByTable;
use run_inputs::{Described, Refusal};
use rv_types::End;
use stats_words::Every;
use std::alloc::Global;
use tool_io::Sink;

/// Runs the core for at most so many cycles and writes what is counted. Errors: `Memory`, before anything is written;
/// `Write`, only where the sink's count of faults rose, with a part of the text written.
pub(crate) fn perform<O: Sink>(
    alloc: Global,
    read: Described,
    cycles: u32,
    every: Option<Every>,
    out: &mut O,
) -> Result<Option<End>, Refusal>
    requires { Fits read.desc read.image.ram }
    ensures { Performs (option_map (λ k. k.cycles) every) read.desc (image_text read.image) cycles
        (O.told out.old) (O.told out.new) result }
{
    let Described { desc, image } = read;
    let mut core = Core::<ByTable>::new(alloc, &desc, image)?;
    let end = write_stats(&mut core, &desc, cycles, every, out)?;
    Ok(end)
}
