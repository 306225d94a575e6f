//! One walk over a cycle's events: it counts them, and finds what comes late (`specs/Reasons.antt`).
ghost use Rattle.std.specs.Prelude.{◌≡◌, ◌<◌, ◌+◌, ◌^◌, ◌++◌, ◌∷◌, Bool, List, ℕ, [], false, length, true};
ghost use Rattle.window_model.specs.Row.{Row as RowText};
ghost use Rattle.run_counts.specs.Counted.{names, numbers};
ghost use Rattle.run_counts.specs.inner.Counting.{AtMost, after_event, before_at, is_plain, numbers_by};
ghost use Rattle.window_model.specs.declared.Event.TheVariants.{Ren};
ghost use Rattle.slot_reasons.specs.Reasons.{late_next, past_after, past_by, renamed_behind, squash_reason};
ghost use Rattle.slot_reasons.specs.Reasons.{stops_short};
ghost use Rattle.slot_reasons.specs.Reasons.{walk, walk_on};
ghost use Rattle.slot_reasons.specs.inner.Walked.{event_at, has_bit};

use crate::{Past, Reason, Walked};
use machine_desc::Desc;
use run_counts::Counts;
use window_model::{Event, Row};

// The event right before a place, if there is one.
fn before_at(events: &[Event], place: usize) -> Option<Event>
    requires { place < length events.now }
    ensures { result ≡ before_at place events.now }
{
    if place == 0 {
        return None;
    }
    Some(events[place - 1])
}

// Whether an event, if there is one, tells of a bit of dependence.
fn has_bit(event: Option<Event>) -> bool
    ensures { result ≡ has_bit event }
{
    match event {
        Some(Event::Dp(_, _)) => true,
        _ => false,
    }
}

// Why all that is fetched behind a squash comes late.
fn squash_reason(behind_bit: bool) -> Reason
    ensures { result ≡ squash_reason behind_bit }
{
    if behind_bit {
        Reason::Violation
    } else {
        Reason::Misprediction
    }
}

// The serial that is there, else this one.
fn first_of(renamed: Option<u64>, serial: u64) -> Option<u64>
    ensures { result ≡ renamed_behind (Ren serial 0) renamed }
{
    match renamed {
        Some(first) => Some(first),
        None => Some(serial),
    }
}

// Tells what is known behind an event that tells no amount: it may rename or fetch. Behind any other event it leaves
// what is known.
#[inline(always)]
fn walk_plain(event: &Event, known: &mut Walked)
    ensures plain { is_plain event.now ≡ true
        → (behind_bit : Bool) → known.new ≡ walk_on behind_bit event.now known.old }
    ensures stays { is_plain event.now ≡ false → known.new ≡ known.old }
{
    if let Event::Ren(serial, _) = event {
        known.renamed = first_of(known.renamed, *serial);
        known.left = known.left.saturating_sub(1);
        return;
    }
    if let Event::Fet(_) = event {
        known.fetched = known.fetched.saturating_add(1);
    }
}

// Tells what is known behind an event that tells an amount, and comes right behind a bit of dependence or doesn't.
#[inline(always)]
fn walk_told(behind_bit: bool, event: &Event, known: &mut Walked)
    requires { is_plain event.now ≡ false }
    ensures { known.new ≡ walk_on behind_bit event.now known.old }
{
    match event {
        Event::Sq(_) => {
            known.late = squash_reason(behind_bit);
            known.left = 0;
        }
        Event::Call(_, _) => known.late = Reason::Call,
        _ => {}
    }
}

// Counts the event at a place, whichever it is, and says whether it comes right behind a bit of dependence. It stays a
// call of its own, and isn't built into the walk over a row, since few events tell an amount.
#[cold]
#[inline(never)]
fn count_told(counts: &mut Counts, events: &[Event], place: usize) -> bool
    requires { place < length events.now }
    ensures counts { counts.new ≡ numbers_by
        (λ name k. after_event name (before_at place events.now) (event_at place events.now) k) names counts.old }
    ensures bit { result ≡ has_bit (before_at place events.now) }
    ensures few { is_plain (event_at place events.now) ≡ false
        → (most : ℕ) → AtMost most counts.old → AtMost most counts.new }
{
    let before = before_at(events, place);
    counts.count_event(before, events[place]);
    has_bit(before)
}

// Counts the event at a place, and tells what is known behind it.
#[inline(always)]
fn count_at(counts: &mut Counts, events: &[Event], place: usize, known: &mut Walked)
    requires place { place < length events.now }
    requires few { AtMost (2 ^ 63) counts.old }
    ensures counts { counts.new ≡ numbers_by
        (λ name k. after_event name (before_at place events.now) (event_at place events.now) k) names counts.old }
    ensures known { known.new ≡ walk_on (has_bit (before_at place events.now)) (event_at place events.now) known.old }
    ensures few { (most : ℕ) → AtMost most counts.old → AtMost (most + 1) counts.new }
{
    let event = &events[place];
    walk_plain(event, known);
    if !counts.count_plain(event) {
        walk_told(count_told(counts, events, place), event, known);
    }
}

// Counts the events of a row, and tells what is known behind them.
#[inline(always)]
fn count_events(counts: &mut Counts, row: &Row, first: Walked) -> Walked
    requires few { AtMost (2 ^ 62) counts.old }
    ensures counts { (rows : List RowText) → counts.old ≡ numbers rows → counts.new ≡ numbers (rows ++ row.now ∷ []) }
    ensures known { result ≡ walk false row.now.events first }
    ensures few { (most : ℕ) → AtMost most counts.old → AtMost (most + 256) counts.new }
{
    let events = row.events();
    let mut known = first;
    for place in 0..events.len() {
        count_at(counts, events, place, &mut known);
    }
    known
}

// Whether Rename stopped short, of so many items of which so many are left.
fn stops_short(desc: &Desc, queued: u64, left: u64) -> bool
    ensures { result ≡ stops_short desc.now queued left }
{
    0 < left && queued.saturating_sub(left) < desc.core_fetch_width as u64
}

// Why what is renamed next comes late, once a cycle is over.
fn late_next(short: bool, renamed: Option<u64>, late: Reason) -> Reason
    ensures { result ≡ late_next short renamed late }
{
    if short {
        return Reason::Room;
    }
    match renamed {
        None => late,
        Some(_) => Reason::FrontEnd,
    }
}

// What is known of a cycle once it is over, by what its events tell.
fn past_by(desc: &Desc, past: &Past, known: Walked) -> Past
    ensures { result ≡ past_by desc.now past.now known }
{
    Past {
        renamed: known.renamed,
        late: known.late,
        next: late_next(
            stops_short(desc, past.queued, known.left),
            known.renamed,
            known.late,
        ),
        queued: known.left.saturating_add(known.fetched),
    }
}

/// Counts the events of a row behind the rows of which these are the numbers, and tells what is known of its cycle. The
/// numbers to which events add that tell no amount must be far from the greatest of 64 bits; a row adds at most 256.
#[inline(always)]
pub fn count_row(counts: &mut Counts, desc: &Desc, past: &Past, row: &Row) -> Past
    requires few { AtMost (2 ^ 62) counts.old }
    ensures counts { (rows : List RowText) → counts.old ≡ numbers rows → counts.new ≡ numbers (rows ++ row.now ∷ []) }
    ensures past { result ≡ past_after desc.now past.now row.now.events }
    ensures few { (most : ℕ) → AtMost most counts.old → AtMost (most + 256) counts.new }
{
    let first = Walked {
        late: past.next,
        renamed: None,
        left: past.queued,
        fetched: 0,
    };
    past_by(desc, past, count_events(counts, row, first))
}
