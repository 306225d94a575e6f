//! What the words ask for, once they were read.
ghost use Rattle.tool_io.specs.Outside.{SameContents};
ghost use Rattle.run_inputs.specs.Told.{world};
ghost use Rattle.stats_words.specs.inner.Words.{asked_text};
ghost use Rattle.stats_top.specs.Top.{AskedEnds};

use crate::performing::perform;
use run_inputs::{ImageSource, Refusal, read_described};
use rv_types::End;
use stats_words::Asked;
use std::alloc::Global;
use tool_io::{Files, Sink};

/// Reads the description and the image, and then runs the core and tells what is counted; no note is written. Error
/// `Memory`: there was none where something that is read, or the run, may need some.
pub(crate) fn answer_asked<F: Files, O: Sink>(
    alloc: Global,
    asked: Asked<'_>,
    files: &mut F,
    out: &mut O,
) -> Result<Option<End>, Refusal>
    ensures ends { AskedEnds (asked_text asked.entry)
        (world (F.shelf files.old) (O.told out.old)) (world (F.shelf files.new) (O.told out.new)) result }
    ensures stays { SameContents (F.shelf files.old) (F.shelf files.new) }
{
    let source = ImageSource::File(asked.image);
    let read = match read_described(alloc, asked.description, source, files) {
        Ok(read) => read,
        Err(refusal) => return Err(refusal),
    };
    perform(alloc, read, asked.cycles, asked.every, out)
}
