//! The top call: all that the program does, over files and sinks that it is handed.
//!
//! What `stats_top` promises stands in `specs/Top.antt`, and in plain words in `docs/theorems.md`.
ghost use Rattle.std.specs.Prelude.{◌≡◌, map};
ghost use Rattle.tool_io.specs.Outside.{SameContents};
ghost use Rattle.run_inputs.specs.Told.{world};
ghost use Rattle.stats_top.specs.Outcome.{status_of};
ghost use Rattle.stats_top.specs.Top.{Ends, EndsWith, Statuses};

use crate::asked::answer_asked;
use run_inputs::{Refusal, note_line};
use rv_types::End;
use stats_words::read_asked;
use std::alloc::Global;
use tool_io::{Files, Sink};

// The status of an outcome (`docs/formats.md`, "Statuses").
fn status_of(outcome: &Result<Option<End>, Refusal>) -> u8
    ensures { result ≡ status_of outcome.now }
{
    match outcome {
        Ok(Some(End::Exit(_))) => 0,
        Ok(Some(End::Trap(_, _))) => 1,
        Ok(None) => 3,
        Err(refusal) => run_inputs::status_of(refusal),
    }
}

// The outcome of the words, with its text written to the output; no note is written.
fn answer<F: Files, O: Sink>(
    alloc: Global,
    words: &[&str],
    files: &mut F,
    out: &mut O,
) -> Result<Option<End>, Refusal>
    ensures ends { Ends (map (λ w. w.now) words.now)
        (world (F.shelf files.old) (O.told out.old)) (world (F.shelf files.new) (O.told out.new)) result }
    ensures stays { SameContents (F.shelf files.old) (F.shelf files.new) }
{
    let asked = read_asked(alloc, words)?;
    answer_asked(alloc, asked, files, out)
}

/// Does all that the program does, and answers its status. `words` are those after the program's name. What is counted
/// is written to `out`; a refusal writes its line to `note`, whose failure changes no status.
///
/// Statuses: 0 the run ended by an exit, 1 by a trap, 3 not within its budget; 2 the words ask for nothing; 4 the
/// description, 5 the image is too long or at fault; 6 a file couldn't be read; 7 the output couldn't be written whole;
/// 8 there was no memory, which comes only before the first byte of output, and never where there are no words.
pub fn stats_top<F: Files, O: Sink, N: Sink>(
    alloc: Global,
    words: &[&str],
    files: &mut F,
    out: &mut O,
    note: &mut N,
) -> u8
    ensures ends { EndsWith (map (λ w. w.now) words.now)
        (world (F.shelf files.old) (O.told out.old)) (world (F.shelf files.new) (O.told out.new))
        (N.told note.old) (N.told note.new) result }
    ensures statuses { Statuses (map (λ w. w.now) words.now)
        (world (F.shelf files.old) (O.told out.old)) (world (F.shelf files.new) (O.told out.new)) result }
    ensures stays { SameContents (F.shelf files.old) (F.shelf files.new) }
{
    let outcome = answer(alloc, words, files, out);
    if let Err(refusal) = &outcome {
        let _ = note.put(note_line(refusal).as_slice());
    }
    status_of(&outcome)
}
