//! The lines of a trace (`docs/formats.md`, "The trace").
ghost use Rattle.std.specs.Prelude.{◌≡◌, ◌≤◌, ◌+◌, ◌*◌, ◌++◌, length, take};
ghost use Rattle.tool_io.specs.Outside.{Writes};
ghost use Rattle.trace_text.specs.TraceText.{events_text, row_text};

use crate::events::{EVENT_MAX, add_event};
use line_text::{Draft, LINE_MAX};
use tool_io::{Failed, Sink};
use window_model::{Event, ROW_MAX, Row};

/// The most bytes of the number of a cycle.
const CYCLE_MAX: usize = 10;

// Writes the events, in turn.
#[tactic(auto, unfolding(crate::specs::TraceText::events_text))]
fn add_events(draft: &mut Draft, from: usize, events: &[Event]) -> usize
    requires few { length events.now ≤ ROW_MAX }
    requires room { from ≤ CYCLE_MAX }
    ensures text { take result draft.new ≡ take from draft.old ++ events_text events.now }
    ensures short { result ≤ from + EVENT_MAX * length events.now }
{
    let mut at = from;
    for event in events {
        at = add_event(draft, at, event);
    }
    at
}

// Writes the line of a cycle at the front of a draft.
#[tactic(auto, unfolding(crate::specs::TraceText::row_text))]
fn fill_draft(row: &Row, draft: &mut Draft) -> usize
    ensures text { take result draft.new ≡ row_text row.now }
    ensures short { result ≤ LINE_MAX }
{
    let number = draft.put_decimal_word(0, row.cycle());
    let events = add_events(draft, number, row.events());
    draft.put(events, *b"\n")
}

/// Writes the line of a cycle, by one put. Error: `Failed`, only where the sink's count of faults rose; then the first
/// bytes of the line were appended, maybe none.
pub fn write_row<S: Sink>(row: &Row, out: &mut S) -> Result<(), Failed>
    ensures { Writes (row_text row.now) (S.told out.old) (S.told out.new) result }
{
    let mut draft = Draft::new();
    write_row_with(row, &mut draft, out)
}

/// Writes the line of a row by a draft that is lent, so that many rows are written on one draft. What it said before
/// doesn't matter.
pub fn write_row_with<S: Sink>(row: &Row, draft: &mut Draft, out: &mut S) -> Result<(), Failed>
    ensures { Writes (row_text row.now) (S.told out.old) (S.told out.new) result }
{
    let end = fill_draft(row, draft);
    out.put(draft.before(end))
}
