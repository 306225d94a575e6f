//! The top call: all that the program does, over files and sinks that it is handed.
//!
//! Its promises stand in `specs/Top.antt` and `Promises.antt`, and in plain words in `docs/theorems.md`.
ghost use Rattle.std.specs.Prelude.{map};
ghost use Rattle.tool_io.specs.Outside.{SameContents};
ghost use Rattle.run_inputs.specs.Told.{world};
ghost use Rattle.secrets_top.specs.Top.{Ends, EndsWith, Statuses};
ghost use Rattle.secrets_top.specs.Promises.{Promises};

use crate::refusal::{Unjudged, note_line, status_of};
use crate::verdict::Verdict;
use crate::wish::answer_wish;
use secret_words::read_wanted;
use std::alloc::Global;
use tool_io::{Files, Sink};

// Reads the words, and does what they want: all that the program does but for the note.
fn answer<F: Files, O: Sink>(
    alloc: Global,
    words: &[&str],
    files: &mut F,
    out: &mut O,
) -> Result<Verdict, Unjudged>
    ensures ends { Ends (map (λ w. w.now) words.now)
        (world (F.shelf files.old) (O.told out.old)) (world (F.shelf files.new) (O.told out.new)) result }
    ensures stays { SameContents (F.shelf files.old) (F.shelf files.new) }
{
    let wanted = read_wanted(alloc, words)?;
    answer_wish(alloc, wanted, files, out)
}

/// Does all that the program does, and answers its status. `words` are those after the program's name: they ask of the
/// run of a core, or of the path, which is the run of the instruction set. What is told of the run is written to `out`,
/// one put a line; a refusal writes its line to `note`, whose failure changes no status.
///
/// Statuses: 0 nothing of the secret shows, and the run ended; 1 something shows; 3 nothing shows within the budget, in
/// which the run didn't end; 2 the words are no wish, or a range isn't within memory or touches code; 4 the
/// description, 5 the image is too long or at fault; 6 a file couldn't be read; 7 the output couldn't be written whole;
/// 8 there was no memory, which comes only before the first byte of output, and never where there are no words.
pub fn secrets_top<F: Files, O: Sink, N: Sink>(
    alloc: Global,
    words: &[&str],
    files: &mut F,
    out: &mut O,
    note: &mut N,
) -> u8
    ensures ends { EndsWith (map (λ w. w.now) words.now)
        (world (F.shelf files.old) (O.told out.old)) (world (F.shelf files.new) (O.told out.new))
        (N.told note.old) (N.told note.new) result }
    ensures statuses { Statuses (map (λ w. w.now) words.now)
        (world (F.shelf files.old) (O.told out.old)) (world (F.shelf files.new) (O.told out.new)) result }
    ensures promises { Promises (map (λ w. w.now) words.now)
        (world (F.shelf files.old) (O.told out.old)) (world (F.shelf files.new) (O.told out.new)) result }
    ensures stays { SameContents (F.shelf files.old) (F.shelf files.new) }
{
    let outcome = answer(alloc, words, files, out);
    if let Err(cause) = &outcome {
        let _ = note.put(note_line(cause).as_slice());
    }
    status_of(&outcome)
}
