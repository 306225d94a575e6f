//! What a run left, beside what is wanted of it.
ghost use Rattle.std.specs.Prelude.{◌≡◌, IfOk, None};

use case_files::TextKind;
use rv_types::NoMemory;
use std::alloc::Global;

// The first line that differs: its number, what it is, and what is wanted, None for no line.
#[derive(Clone, Copy)]
struct Other<'a> {
    number: usize,
    found: Option<&'a str>,
    wanted: Option<&'a str>,
}

// The first line of a text, from one on, that isn't the one that is wanted. Where all are, the text behind them
// differs.
fn first_other<'a>(found: &'a str, wanted: &'a str, from: usize) -> Other<'a> {
    let mut wanted = wanted.lines();
    let mut number = from;
    for line in found.lines().skip(from) {
        number = number.saturating_add(1);
        let other = wanted.next();
        if other != Some(line) {
            return Other {
                number,
                found: Some(line),
                wanted: other,
            };
        }
    }
    Other {
        number: number.saturating_add(1),
        found: None,
        wanted: wanted.next(),
    }
}

// Tells of a line that differs.
fn told(alloc: Global, other: Other<'_>) -> Result<String, NoMemory> {
    let Other {
        number,
        found,
        wanted,
    } = other;
    let told = match (found, wanted) {
        (Some(got), Some(wanted)) => {
            format!(in alloc; "line {number}: wanted `{wanted}`, got `{got}`")?
        }
        (Some(got), None) => format!(in alloc; "line {number}: wanted no line, got `{got}`")?,
        (None, Some(wanted)) => format!(in alloc; "line {number}: wanted `{wanted}`, got no line")?,
        (None, None) => format!(in alloc; "its last line ends otherwise")?,
    };
    Ok(told)
}

// How a text differs from the whole one that is wanted; None where it is that one.
fn whole_differs(alloc: Global, found: &str, wanted: &str) -> Result<Option<String>, NoMemory>
    ensures { IfOk result (λ told. told ≡ None → found.now ≡ wanted.now) }
{
    if found == wanted {
        return Ok(None);
    }
    Ok(Some(told(alloc, first_other(found, wanted, 0))?))
}

// How a text ends otherwise than it is wanted to; None where it doesn't.
fn end_of_text_differs(
    alloc: Global,
    found: &str,
    wanted: &str,
) -> Result<Option<String>, NoMemory> {
    if found.ends_with(wanted) {
        return Ok(None);
    }
    let more = found.lines().count().saturating_sub(wanted.lines().count());
    Ok(Some(told(alloc, first_other(found, wanted, more))?))
}

// The first of these lines that a text doesn't have behind those before it; None where it has all.
fn line_lacks(alloc: Global, found: &str, wanted: &str) -> Result<Option<String>, NoMemory> {
    let mut lines = found.lines();
    let lacking = wanted
        .lines()
        .find(|wanted| !lines.any(|line| line == *wanted));
    match lacking {
        Some(line) => Ok(Some(format!(in alloc; "none of its further lines is `{line}`")?)),
        None => Ok(None),
    }
}

// The text without the number of cycles at its end.
fn without_cycles<'a>(text: &'a str) -> &'a str {
    match text.rsplit_once(" cycles ") {
        Some((before, _)) => before,
        None => text,
    }
}

/// How a text differs from one that is wanted; None where it doesn't.
pub(crate) fn text_differs(
    alloc: Global,
    kind: TextKind,
    found: &[u8],
    wanted: &str,
) -> Result<Option<String>, NoMemory> {
    let Ok(found) = std::str::from_utf8(found) else {
        return Ok(Some(String::from_str(alloc, "it is no text")?));
    };
    match kind {
        TextKind::Ends => end_of_text_differs(alloc, found, wanted),
        TextKind::Lines => line_lacks(alloc, found, wanted),
        TextKind::Cut => whole_differs(alloc, found, wanted.strip_suffix('\n').unwrap_or(wanted)),
        TextKind::SameButCycles => whole_differs(alloc, without_cycles(found), wanted.trim_end()),
        TextKind::Whole | TextKind::Report | TextKind::Same => {
            whole_differs(alloc, found, wanted)
        }
    }
}

/// How a status and a note differ from those that are wanted; None where they don't.
pub(crate) fn end_differs(
    alloc: Global,
    found: (u8, &[u8]),
    wanted: (u8, &str),
) -> Result<Option<String>, NoMemory>
    ensures { IfOk result (λ told. told ≡ None
        → (found.entry.0 ≡ wanted.entry.0) × (found.entry.1.now ≡ wanted.entry.1.now)) }
{
    let (status, note) = found;
    let (status_wanted, note_wanted) = wanted;
    if status != status_wanted {
        return Ok(Some(format!(in alloc; "the status is {status}, wanted {status_wanted}")?));
    }
    if note != note_wanted.as_bytes() {
        let note = String::from_utf8_lossy(alloc, note)?;
        let note = note.as_str();
        return Ok(Some(format!(in alloc; "the note is `{note}`, wanted `{note_wanted}`")?));
    }
    Ok(None)
}
