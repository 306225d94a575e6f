//! A command, once the words were read.
ghost use Rattle.tool_io.specs.Outside.{SameContents};
ghost use Rattle.tool_words.specs.inner.Words.{command_text};
ghost use Rattle.run_inputs.specs.Told.{world};
ghost use Rattle.stt_top.specs.Top.{CommandEnds};

use crate::outcome::Ended;
use crate::performing::perform;
use crate::task::read_task;
use run_inputs::Refusal;
use std::alloc::Global;
use tool_io::{Files, Sink};
use tool_words::Command;

/// The outcome of a command, with its text written to the output; no note is written. It reads all that the command
/// needs before it takes memory for the run. Error `Memory`: there was none where something that is read, or the run,
/// may need some.
pub(crate) fn answer_command<F: Files, O: Sink>(
    alloc: Global,
    command: Command<'_>,
    files: &mut F,
    out: &mut O,
) -> Result<Ended, Refusal>
    ensures ends { CommandEnds (command_text command.entry)
        (world (F.shelf files.old) (O.told out.old)) (world (F.shelf files.new) (O.told out.new)) result }
    ensures stays { SameContents (F.shelf files.old) (F.shelf files.new) }
{
    let task = read_task(alloc, command, files)?;
    perform(alloc, task, out)
}
