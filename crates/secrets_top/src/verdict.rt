//! What is told of a run: nothing of a secret shows, or what shows first (`docs/formats.md`, "The program
//! stt_secrets").
//!
//! A put has one line, and nothing here takes memory.
ghost use Rattle.std.specs.Prelude.{◌≡◌, Some};
ghost use Rattle.tool_io.specs.Outside.{Writes};
ghost use Rattle.secrets_top.specs.Verdict.{told_of, what_shows, shown_line, step_line, published_line, last_lines, hidden_text, verdict_text, verdict_status};

use constant_time::FirstStep;
use line_text::{Line, write_end};
use rv_types::{Ending, Kind};
use secret_marks::{FirstShown, PublicStreams};
use tool_io::{Failed, Sink};

/// What is told of a run.
#[derive(Clone, Copy, Debug, PartialEq, Eq)]
pub(crate) enum Verdict {
    /// Nothing shows in the run, which ended so, or not within its budget; and how many bytes it published, where a
    /// stream is public.
    Hidden(Ending, Option<u64>),
    /// Something shows in the run of a core: what does first, and in which cycle.
    Shown(FirstShown),
    /// Something shows on the path: what does first, and in which step.
    PathShown(FirstStep),
}

/// How many bytes a run published, as it is told: where a stream is public.
pub(crate) fn told_of(public: PublicStreams, count: u64) -> Option<u64>
    ensures { result ≡ told_of public count }
{
    if public.first || public.second {
        Some(count)
    } else {
        None
    }
}

// The word of what shows of an instruction of this kind. Of a kind that isn't named nothing shows but where a branch or
// JALR goes.
fn what_shows(kind: Kind) -> &'static [u8]
    ensures { result.now ≡ what_shows kind }
{
    match kind {
        Kind::Load | Kind::Store => b"access",
        Kind::Div => b"division",
        Kind::Call => b"call",
        _ => b"branch",
    }
}

#[tactic(auto, unfolding(crate::specs::Verdict::shown_line))]
fn shown_line(first: &FirstShown) -> Line
    ensures { result ≡ shown_line first.now }
{
    let mut line = Line::new();
    line.add(b"shown ");
    line.add_decimal_word(first.cycle);
    line.add(b" ");
    line.add(what_shows(first.shown.kind));
    line.add(b" ");
    line.add_decimal(first.shown.serial);
    line.add(b" ");
    line.add_hex8(first.shown.pc);
    line.add(b"\n");
    line
}

#[tactic(auto, unfolding(crate::specs::Verdict::step_line))]
fn step_line(first: &FirstStep) -> Line
    ensures { result ≡ step_line first.now }
{
    let mut line = Line::new();
    line.add(b"shown ");
    line.add_decimal(first.step);
    line.add(b" ");
    line.add(what_shows(first.kind));
    line.add(b" ");
    line.add_hex8(first.pc);
    line.add(b"\n");
    line
}

#[tactic(auto, unfolding(crate::specs::Verdict::published_line))]
fn published_line(bytes: u64) -> Line
    ensures { result ≡ published_line bytes }
{
    let mut line = Line::new();
    line.add(b"published ");
    line.add_decimal(bytes);
    line.add(b"\n");
    line
}

fn write_published<S: Sink>(bytes: u64, ending: &Ending, out: &mut S) -> Result<(), Failed>
    ensures { Writes (last_lines ending.now (Some bytes)) (S.told out.old) (S.told out.new) result }
{
    out.put(published_line(bytes).as_slice())?;
    write_end(ending, out)
}

fn write_last<S: Sink>(ending: &Ending, published: Option<u64>, out: &mut S) -> Result<(), Failed>
    ensures { Writes (last_lines ending.now published) (S.told out.old) (S.told out.new) result }
{
    match published {
        Some(bytes) => write_published(bytes, ending, out),
        None => write_end(ending, out),
    }
}

fn write_hidden<S: Sink>(ending: &Ending, published: Option<u64>, out: &mut S) -> Result<(), Failed>
    ensures { Writes (hidden_text ending.now published) (S.told out.old) (S.told out.new) result }
{
    out.put(b"hidden\n")?;
    write_last(ending, published, out)
}

/// Writes what is told of a run, one put a line. Error: `Failed`, only where the sink's count of faults rose; then a
/// prefix of the text was appended, maybe none of it.
pub(crate) fn write_verdict<S: Sink>(verdict: &Verdict, out: &mut S) -> Result<(), Failed>
    ensures { Writes (verdict_text verdict.now) (S.told out.old) (S.told out.new) result }
{
    match verdict {
        Verdict::Hidden(ending, published) => write_hidden(ending, *published, out),
        Verdict::Shown(first) => out.put(shown_line(first).as_slice()),
        Verdict::PathShown(first) => out.put(step_line(first).as_slice()),
    }
}

/// The status of what is told (`docs/formats.md`, "Statuses").
pub(crate) fn verdict_status(verdict: &Verdict) -> u8
    ensures { result ≡ verdict_status verdict.now }
{
    match verdict {
        Verdict::Hidden(ending, _) => { if ending.end.is_some() { 0 } else { 3 } }
        Verdict::Shown(_) | Verdict::PathShown(_) => 1,
    }
}
