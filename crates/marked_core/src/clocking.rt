//! A cycle over the parts and the marks beside them.
ghost use Rattle.std.specs.Prelude.{◌≡◌, ◌<◌, ◌≤◌, ◌-◌, ◌^◌, length, None};
ghost use Rattle.elf_loader.specs.inner.Code.{word_at};
ghost use Rattle.window_model.specs.Committed.{Commits};
ghost use Rattle.window_model.specs.Cycle.{Cycled, cycle};
ghost use Rattle.secret_marks.specs.Shown.{or_else, shown_cycle};
ghost use Rattle.secret_marks.specs.Streams.{public_in};
ghost use Rattle.secret_marks.specs.Watch.{watch_cycle};
ghost use Rattle.entry_marks.specs.Walk.{marks_of};
ghost use Rattle.marked_core.specs.InStep.{Between};

use crate::halves::{after_retire, before_retire};
use crate::phases::retire_marked;
use core_parts::Parts;
use entry_marks::Marks;
use rename_taint::RenameTaint;
use rv_types::Piece;
use secret_marks::{PublicStreams, Shown};
use window_model::Row;

// What shows first of two.
fn or_else(first: Option<Shown>, second: Option<Shown>) -> Option<Shown>
    ensures { result ≡ or_else first second }
{
    match first {
        Some(shown) => Some(shown),
        None => second,
    }
}

/// One cycle, as that of any core; how the marks move in it, and what shows in it first. Before it and after it
/// `unexposed` notes whether nothing resolved is marked.
pub(crate) fn clock<R: RenameTaint>(
    parts: &mut Parts<R>,
    marks: &mut Marks,
    public: PublicStreams,
    unexposed: &mut bool,
    row: &mut Row,
    piece: &mut Piece,
) -> Option<Shown>
    requires between { Between parts.old marks.old unexposed.old }
    requires running { parts.old.machine.end ≡ None }
    requires few { parts.old.machine.cycle < 2 ^ 32 - 1 }
    ensures cycled { record { machine = parts.new.machine; row = row.new; piece = piece.new }
        ≡ cycle parts.old.desc (word_at parts.old.code) parts.old.machine }
    ensures commits { Commits (word_at parts.old.code) parts.old.machine parts.new.machine piece.new }
    ensures desc { parts.new.desc ≡ parts.old.desc }
    ensures code { parts.new.code ≡ parts.old.code }
    ensures events { length row.new.events ≤ 232 }
    ensures marks { marks_of marks.new ≡ (watch_cycle (public_in public) parts.old.desc (word_at parts.old.code)
        parts.old.machine (marks_of marks.old)).marks }
    ensures shown { result ≡ shown_cycle (public_in public) parts.old.desc parts.old.machine (marks_of marks.old) }
    ensures between { Between parts.new marks.new unexposed.new }
{
    parts.begin();
    row.begin(parts.cycle);
    piece.clear();
    let resolved = before_retire(parts, marks, *unexposed, row);
    *unexposed = resolved.is_none();
    let asked = retire_marked(parts, marks, public, row, piece);
    let operand = after_retire(parts, marks, row);
    or_else(resolved, or_else(asked, operand))
}
