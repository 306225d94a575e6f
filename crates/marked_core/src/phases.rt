//! The phases that move marks, or in which something marked shows: each is that of its crate over the parts, with what
//! becomes of the marks beside them (`docs/theorems.md`, "Secrets that are loaded").
ghost use Rattle.std.specs.Prelude.{◌≡◌, ◌<◌, ◌+◌, ◌-◌, ◌^◌, [], None, length};
ghost use Rattle.std.specs.List.{AllByRecursion as Each};
ghost use Rattle.rv_types.specs.Isa.{reg};
ghost use Rattle.machine_facts.specs.Sized.{Sized};
ghost use Rattle.machine_facts.specs.Timely.{WaitsOrDone};
ghost use Rattle.visibility.specs.Point.{HasAdvanced};
ghost use Rattle.window_model.specs.Clear.{clear};
ghost use Rattle.window_model.specs.Issue.{issue};
ghost use Rattle.window_model.specs.Rename.{rename};
ghost use Rattle.window_model.specs.Resolve.{resolve};
ghost use Rattle.window_model.specs.Retire.{retire};
ghost use Rattle.window_model.specs.inner.Row.{HasRoom, IsLonger, most_cleared, most_entries, most_fetched, most_issued, most_resolved, most_retired, with_events};
ghost use Rattle.secret_marks.specs.Marks.{after_issue_marks, after_retire_marks, cut, with_new_entries};
ghost use Rattle.secret_marks.specs.Published.{published_marks};
ghost use Rattle.secret_marks.specs.Streams.{public_in};
ghost use Rattle.secret_marks.specs.Shown.{head_shown, operands_shown, resolved_shown};
ghost use Rattle.entry_marks.specs.Walk.{marks_of};
ghost use Rattle.marked_core.specs.InStep.{AsNoted, InStep, NotYet};

use clear::clear;
use core_cycle::retire;
use core_parts::Parts;
use entry_marks::{Marks, cut, extend, leave, leaving, mark_issued, resolved_shown};
use issue::issue;
use mark_words::publish;
use rename::rename;
use rename_taint::RenameTaint;
use resolve::resolve;
use rv_types::Piece;
use secret_marks::{PublicStreams, Shown};
use shown_marks::{head_shown, operands_shown};
use window_model::Row;

// The number of entries in flight.
fn entries<R: RenameTaint>(parts: &Parts<R>) -> u32
    ensures value { result ≡ length parts.now.machine.window }
    ensures sized { Sized parts.now.desc parts.now.machine }
{
    parts.rob.len()
}

// The address of memory's first byte.
fn base<R: RenameTaint>(parts: &Parts<R>) -> u32
    ensures { result ≡ parts.now.machine.ram.base }
{
    parts.ram.base()
}

/// The stream to which a call writes, if it does.
pub(crate) fn stream<R: RenameTaint>(parts: &Parts<R>) -> u32
    ensures { result ≡ reg parts.now.machine.regs 10 }
{
    parts.regs[10]
}

// The place in memory from which a call writes, if it does.
fn place<R: RenameTaint>(parts: &Parts<R>) -> u32
    ensures { result ≡ reg parts.now.machine.regs 11 - parts.now.machine.ram.base }
{
    parts.regs[11].saturating_sub(base(parts))
}

/// Phase Resolve. Marks are left of the entries that are left. What shows is the oldest branch or JALR that is then
/// resolved with a marked outcome. Where `unexposed` notes that none was so before, and the phase has no event, none
/// is.
pub(crate) fn resolve_marked<R: RenameTaint>(
    parts: &mut Parts<R>,
    marks: &mut Marks,
    unexposed: bool,
    row: &mut Row,
) -> Option<Shown>
    requires advanced { HasAdvanced parts.old.point parts.old.machine.window }
    requires room { HasRoom most_resolved row.old }
    requires step { InStep parts.old marks.old }
    requires noted { AsNoted unexposed parts.old.machine.window marks.old.window.items }
    ensures machine { parts.new ≡ record parts.old { machine = (resolve parts.old.desc parts.old.machine).machine } }
    ensures row { row.new ≡ with_events row.old (resolve parts.old.desc parts.old.machine).events }
    ensures few { IsLonger most_resolved row.old row.new }
    ensures marks { marks_of marks.new ≡ cut parts.new.machine.window (marks_of marks.old) }
    ensures shown { result ≡ resolved_shown parts.new.machine.window (marks_of marks.new).window }
    ensures step { InStep parts.new marks.new }
{
    let before = row.events().len();
    resolve(parts, row);
    if unexposed && row.events().len() == before {
        return None;
    }
    cut(&mut marks.window, entries(parts));
    resolved_shown(parts.rob(), &marks.window)
}

/// Phase Clear. Marks are left of the entries that are left.
pub(crate) fn clear_marked<R: RenameTaint>(parts: &mut Parts<R>, marks: &mut Marks, row: &mut Row)
    requires advanced { HasAdvanced parts.old.point parts.old.machine.window }
    requires room { HasRoom most_cleared row.old }
    requires step { InStep parts.old marks.old }
    ensures machine { parts.new ≡ record parts.old { machine = (clear parts.old.desc parts.old.machine).machine } }
    ensures row { row.new ≡ with_events row.old (clear parts.old.desc parts.old.machine).events }
    ensures few { IsLonger most_cleared row.old row.new }
    ensures marks { marks_of marks.new ≡ cut parts.new.machine.window (marks_of marks.old) }
    ensures step { InStep parts.new marks.new }
{
    clear(parts, row);
    let left = entries(parts);
    cut(&mut marks.window, left);
}

/// Phase Retire. The entries that retire leave their marks in registers and memory, and what a call writes to a public
/// stream loses its marks. What shows is the call at the head, if it shows: it is looked at before the phase, whether
/// it retires then or not.
pub(crate) fn retire_marked<R: RenameTaint>(
    parts: &mut Parts<R>,
    marks: &mut Marks,
    public: PublicStreams,
    row: &mut Row,
    piece: &mut Piece,
) -> Option<Shown>
    requires advanced { HasAdvanced parts.old.point parts.old.machine.window }
    requires room { HasRoom most_retired row.old }
    requires running { parts.old.machine.end ≡ None }
    requires empty { piece.old ≡ [] }
    requires counts { parts.old.machine.retired + most_entries < 2 ^ 64 }
    requires step { InStep parts.old marks.old }
    requires memory { length marks.old.bytes.items ≡ length parts.old.machine.ram.bytes }
    ensures machine { parts.new ≡ record parts.old { machine = (retire parts.old.desc parts.old.machine).machine } }
    ensures row { row.new ≡ with_events row.old (retire parts.old.desc parts.old.machine).events }
    ensures piece { piece.new ≡ (retire parts.old.desc parts.old.machine).piece }
    ensures advanced { HasAdvanced parts.new.point parts.new.machine.window }
    ensures few { IsLonger most_retired row.old row.new }
    ensures marks { marks_of marks.new ≡ published_marks (public_in public) parts.old.machine piece.new
        (after_retire_marks parts.old.machine.window parts.new.machine (marks_of marks.old)) }
    ensures shown { result ≡ head_shown parts.old.machine.window parts.old.machine (marks_of marks.old) }
    ensures step { InStep parts.new marks.new }
    ensures memory { length marks.new.bytes.items ≡ length parts.new.machine.ram.bytes }
{
    let shown = head_shown(parts, marks);
    let copies = leaving(parts.rob(), &marks.window);
    let before = entries(parts);
    let stream = stream(parts);
    let place = place(parts);
    retire(parts, row, piece);
    let gone = before.saturating_sub(entries(parts));
    leave(marks, &copies, base(parts), gone);
    publish(&mut marks.bytes, public, stream, place, piece.as_slice());
    shown
}

/// Phase Issue, in a cycle in which nothing has issued yet. What issues, as the phase names it, gets the marks of its
/// operands. What shows is the oldest operand that tells an address or the time of a division and is marked, as the
/// phase finds it.
pub(crate) fn issue_marked<R: RenameTaint>(
    parts: &mut Parts<R>,
    marks: &mut Marks,
    row: &mut Row,
) -> Option<Shown>
    requires advanced { HasAdvanced parts.old.point parts.old.machine.window }
    requires settled { Each WaitsOrDone parts.old.machine.window }
    requires fresh { Each (NotYet parts.old.machine.cycle) parts.old.machine.window }
    requires room { HasRoom most_issued row.old }
    requires step { InStep parts.old marks.old }
    ensures machine { parts.new ≡ record parts.old { machine = (issue parts.old.desc parts.old.machine).machine } }
    ensures row { row.new ≡ with_events row.old (issue parts.old.desc parts.old.machine).events }
    ensures advanced { HasAdvanced parts.new.point parts.new.machine.window }
    ensures few { IsLonger most_issued row.old row.new }
    ensures marks { marks_of marks.new ≡ after_issue_marks parts.new.machine (marks_of marks.old) }
    ensures shown { result ≡ operands_shown parts.old.desc (marks_of marks.old) [] []
        parts.old.machine.window (marks_of marks.old).window }
    ensures step { InStep parts.new marks.new }
{
    let shown = operands_shown(parts, marks);
    let issued = issue(parts, row);
    mark_issued(parts, marks, issued.as_slice());
    shown
}

/// Phase Rename. Entries come unmarked.
pub(crate) fn rename_marked<R: RenameTaint>(parts: &mut Parts<R>, marks: &mut Marks, row: &mut Row)
    requires serials { parts.old.machine.next_serial + most_fetched < 2 ^ 64 }
    requires room { HasRoom most_fetched row.old }
    requires step { InStep parts.old marks.old }
    ensures machine { parts.new ≡ record parts.old { machine = (rename parts.old.desc parts.old.machine).machine } }
    ensures row { row.new ≡ with_events row.old (rename parts.old.desc parts.old.machine).events }
    ensures few { IsLonger most_fetched row.old row.new }
    ensures marks { marks_of marks.new ≡ with_new_entries parts.new.machine.window (marks_of marks.old) }
    ensures step { InStep parts.new marks.new }
{
    rename(parts, row);
    extend(&mut marks.window, entries(parts));
}
