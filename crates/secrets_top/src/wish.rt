//! What the words want, once they were read.
ghost use Rattle.tool_io.specs.Outside.{SameContents};
ghost use Rattle.run_inputs.specs.Told.{world};
ghost use Rattle.secret_words.specs.inner.Words.{wanted_text};
ghost use Rattle.secrets_top.specs.Top.{WishEnds};

use crate::performing::perform;
use crate::refusal::Unjudged;
use crate::task::read_task;
use crate::verdict::Verdict;
use secret_words::Wanted;
use std::alloc::Global;
use tool_io::{Files, Sink};

/// Reads the description, if one is named, and the image, and then tells what the run shows; no note is written. Want
/// of memory is answered only where something that is read may need some, or the run of what is accepted.
pub(crate) fn answer_wish<F: Files, O: Sink>(
    alloc: Global,
    wanted: Wanted<'_>,
    files: &mut F,
    out: &mut O,
) -> Result<Verdict, Unjudged>
    ensures ends { WishEnds (wanted_text wanted.entry)
        (world (F.shelf files.old) (O.told out.old)) (world (F.shelf files.new) (O.told out.new)) result }
    ensures stays { SameContents (F.shelf files.old) (F.shelf files.new) }
{
    let task = read_task(alloc, wanted.image, wanted.run, files)?;
    perform(alloc, task, wanted.secret.as_slice(), wanted.public, out)
}
