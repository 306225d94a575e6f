//! A program over its words as they were read.
ghost use Rattle.std.specs.Prelude.{◌≢◌, ℕ, List, [], IfOk, IfErr, map, string_bytes};
ghost use Rattle.std.specs.Process.{exit_status};
ghost use Rattle.tool_io.specs.Outside.{SameContents, Told};
ghost use Rattle.run_inputs.specs.Note.{Tells};
ghost use Rattle.run_inputs.specs.Refused.{words_refused};
ghost use Rattle.run_inputs.specs.Told.{World, world, RefusedAtOnce};
ghost use Rattle.run_inputs.specs.declared.refusal.Refusal.TheVariants.{Memory};

use crate::note::refuse;
use crate::refusal::Refusal;
use std::alloc::Global;
use std::process::ExitCode;
use tool_io::{Files, Sink};
use tool_words::{Refused, lend_words};

/// What a program does by its words, over files and sinks that it is handed.
pub trait Program {
    /// How it ends over words: what files and output tell before and after, what the note does, and the status.
    ghost ends: { List (List ℕ) → World → World → Told → Told → ℕ → Type 0 };

    /// Does what the words ask for, which are those after the program's name, and answers the status.
    fn top<F: Files, O: Sink, N: Sink>(
        alloc: Global,
        words: &[&str],
        files: &mut F,
        out: &mut O,
        note: &mut N,
    ) -> u8
        ensures ends { ends (map (λ w. w.now) words.now)
            (world (F.shelf files.old) (O.told out.old)) (world (F.shelf files.new) (O.told out.new))
            (N.told note.old) (N.told note.new) result }
        ensures stays { SameContents (F.shelf files.old) (F.shelf files.new) };

    /// Where there are words, it may end at once for want of memory, with the line on the note.
    ghost may_lack_memory: { (words : List (List ℕ)) (old new : World) (note note' : Told) (status : ℕ) → words ≢ []
        → RefusedAtOnce Memory old new status → Tells Memory note note' → ends words old new note note' status };
}

// Does what the words ask for.
fn over_words<P: Program, F: Files, O: Sink, N: Sink>(
    alloc: Global,
    words: &[String],
    files: &mut F,
    out: &mut O,
    note: &mut N,
) -> u8
    ensures ends { P.ends (map string_bytes words.now)
        (world (F.shelf files.old) (O.told out.old)) (world (F.shelf files.new) (O.told out.new))
        (N.told note.old) (N.told note.new) result }
    ensures stays { SameContents (F.shelf files.old) (F.shelf files.new) }
{
    match lend_words(alloc, words) {
        Ok(lent) => P::top(alloc, lent.as_slice(), files, out, note),
        Err(refused) => refuse(&Refusal::from(refused), note),
    }
}

/// Does all that a program does, by its words after its name as they were read or the reason why they weren't. Where
/// they were it is the program over them, and else they are refused for that reason, with its status and its line on
/// the note.
pub fn over_read<P: Program, F: Files, O: Sink, N: Sink>(
    alloc: Global,
    words: Result<Vec<String>, Refused>,
    files: &mut F,
    out: &mut O,
    note: &mut N,
) -> ExitCode
    ensures ends { IfOk words (λ w. P.ends (map string_bytes w.items)
        (world (F.shelf files.old) (O.told out.old)) (world (F.shelf files.new) (O.told out.new))
        (N.told note.old) (N.told note.new) (exit_status result)) }
    ensures unread { IfErr words (λ e. RefusedAtOnce (words_refused e)
        (world (F.shelf files.old) (O.told out.old)) (world (F.shelf files.new) (O.told out.new)) (exit_status result)
        × Tells (words_refused e) (N.told note.old) (N.told note.new)) }
    ensures stays { SameContents (F.shelf files.old) (F.shelf files.new) }
{
    match words {
        Ok(words) => ExitCode::from(over_words::<P, F, O, N>(
            alloc,
            words.as_slice(),
            files,
            out,
            note,
        )),
        Err(refused) => ExitCode::from(refuse(&Refusal::from(refused), note)),
    }
}
