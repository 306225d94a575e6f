//! The top call: all that the program does, over files and sinks that it is handed.
//!
//! Its promises stand in `specs/Top.antt`, and in plain words in `docs/theorems.md`.
ghost use Rattle.std.specs.Prelude.{map};
ghost use Rattle.tool_io.specs.Outside.{SameContents};
ghost use Rattle.stt_top.specs.Work.{OneWork};
ghost use Rattle.run_inputs.specs.Told.{world};
ghost use Rattle.stt_top.specs.Top.{Ends, EndsWith, Statuses};
ghost use Rattle.stt_top.specs.Promises.{Promises, TracesAgree};

use crate::command::answer_command;
use crate::outcome::{Ended, status_of};
use run_inputs::{Refusal, note_line};
use std::alloc::Global;
use tool_io::{Files, Sink};
use tool_words::read_words;

// The outcome of the words, with its text written to the output; no note is written.
fn answer<F: Files, O: Sink>(
    alloc: Global,
    words: &[&str],
    files: &mut F,
    out: &mut O,
) -> Result<Ended, Refusal>
    ensures ends { Ends (map (λ w. w.now) words.now)
        (world (F.shelf files.old) (O.told out.old)) (world (F.shelf files.new) (O.told out.new)) result }
    ensures stays { SameContents (F.shelf files.old) (F.shelf files.new) }
{
    let command = read_words(alloc, words)?;
    answer_command(alloc, command, files, out)
}

/// Does all that the program does, and answers its status. `words` are those after the program's name. What is asked
/// for is written to `out`, one put a line; a refusal writes its line to `note`, whose failure changes no status.
///
/// Statuses: 0 the run ended by an exit, 1 by a trap, 3 not within its budget; for two images 0 their runs are the
/// same, 1 they aren't; 2 the words are no command; 4 the description, 5 an image is too long or at fault; 6 a file
/// couldn't be read; 7 the output couldn't be written whole; 8 there was no memory, which comes only before the first
/// byte of output, and never where there are no words.
pub fn stt_top<F: Files, O: Sink, N: Sink>(
    alloc: Global,
    words: &[&str],
    files: &mut F,
    out: &mut O,
    note: &mut N,
) -> u8
    ensures ends { EndsWith (map (λ w. w.now) words.now)
        (world (F.shelf files.old) (O.told out.old)) (world (F.shelf files.new) (O.told out.new))
        (N.told note.old) (N.told note.new) result }
    ensures statuses { Statuses (map (λ w. w.now) words.now)
        (world (F.shelf files.old) (O.told out.old)) (world (F.shelf files.new) (O.told out.new)) result }
    ensures promises { Promises (map (λ w. w.now) words.now)
        (world (F.shelf files.old) (O.told out.old)) (world (F.shelf files.new) (O.told out.new)) result }
    ensures stays { SameContents (F.shelf files.old) (F.shelf files.new) }
{
    let outcome = answer(alloc, words, files, out);
    if let Err(refusal) = &outcome {
        let _ = note.put(note_line(refusal).as_slice());
    }
    status_of(&outcome)
}

/// What a command asks for comes to one text and one way to end, if to any.
pub fn one_work()
    ensures { OneWork }
{}

/// A file's image and any other with its entry and code have one trace under a description whose model protects, where
/// their memories agree on each byte that the path loads in as many steps as the machine retires and the window may
/// hold besides (`docs/theorems.md`, "Noninterference").
pub fn traces_agree()
    ensures { TracesAgree }
{}
