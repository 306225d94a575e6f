//! The program, over its words as they were read.
ghost use Rattle.std.specs.Prelude.{IfOk, IfErr, map, string_bytes};
ghost use Rattle.std.specs.Process.{exit_status};
ghost use Rattle.tool_io.specs.Outside.{SameContents};
ghost use Rattle.run_inputs.specs.Note.{Tells};
ghost use Rattle.run_inputs.specs.Refused.{words_refused};
ghost use Rattle.run_inputs.specs.Told.{world, RefusedAtOnce};
ghost use Rattle.stats_top.specs.Top.{EndsWith, Statuses};

use crate::top::stats_top;
use run_inputs::{Program, over_read};
use std::alloc::Global;
use std::process::ExitCode;
use tool_io::{Files, Sink};
use tool_words::Refused;

/// What counts a run, as a program over its words.
struct Counter;

impl Program for Counter {
    ghost use Rattle.std.specs.Prelude.{Err};
    ghost use Rattle.run_inputs.specs.declared.refusal.Refusal.TheVariants.{Memory};
    ghost use Rattle.stats_top.specs.Top.{EndsWith};

    ghost ends = { EndsWith };

    fn top<F: Files, O: Sink, N: Sink>(
        alloc: Global,
        words: &[&str],
        files: &mut F,
        out: &mut O,
        note: &mut N,
    ) -> u8 {
        stats_top(alloc, words, files, out, note)
    }

    ghost may_lack_memory = { λ words old new note note' status some refused told.
        (Err Memory, refused.status_is, (some, refused.counts, refused.out), told) };
}

/// Does all that the program does, by its words after its name as they were read or the reason why they weren't. Where
/// they were it is `stats_top` over them, and else they are refused for that reason, with its status and its line on
/// the note.
pub fn stats_program<F: Files, O: Sink, N: Sink>(
    alloc: Global,
    words: Result<Vec<String>, Refused>,
    files: &mut F,
    out: &mut O,
    note: &mut N,
) -> ExitCode
    ensures ends { IfOk words (λ w. EndsWith (map string_bytes w.items)
        (world (F.shelf files.old) (O.told out.old)) (world (F.shelf files.new) (O.told out.new))
        (N.told note.old) (N.told note.new) (exit_status result)) }
    ensures statuses { IfOk words (λ w. Statuses (map string_bytes w.items)
        (world (F.shelf files.old) (O.told out.old)) (world (F.shelf files.new) (O.told out.new))
        (exit_status result)) }
    ensures unread { IfErr words (λ e. RefusedAtOnce (words_refused e)
        (world (F.shelf files.old) (O.told out.old)) (world (F.shelf files.new) (O.told out.new)) (exit_status result)
        × Tells (words_refused e) (N.told note.old) (N.told note.new)) }
    ensures stays { SameContents (F.shelf files.old) (F.shelf files.new) }
{
    over_read::<Counter, F, O, N>(alloc, words, files, out, note)
}
