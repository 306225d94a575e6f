//! The reason of a cycle's empty slots (`specs/Reasons.antt`).
ghost use Rattle.std.specs.Prelude.{◌≡◌, slice_get};
ghost use Rattle.slot_reasons.specs.Reasons.{awaits, executes, first_past, head_reason, is_from, is_made_late, keeps};
ghost use Rattle.slot_reasons.specs.Reasons.{load_reason, reason_of, stays_busy, stays_done, time_taken};

use crate::keeping::times_kept;
use crate::{KEPT_PLACES, Kept, Known, Past, Reason};
use machine_desc::Desc;
use rob_ring::RobRing;
use rv_types::{End, Kind};
use window_model::{Entry, Progress};

/// What is known of the cycle before the first one.
pub(crate) fn first_past() -> Past
    ensures { result ≡ first_past }
{
    Past {
        renamed: None,
        late: Reason::FrontEnd,
        next: Reason::FrontEnd,
        queued: 0,
    }
}

/// Whether an entry was renamed in the cycle whose first one is this.
pub(crate) fn is_from(first: Option<u64>, serial: u64) -> bool
    ensures { result ≡ is_from first serial }
{
    match first {
        None => false,
        Some(first) => first <= serial,
    }
}

// How long an entry takes, in cycles.
fn time_taken(due: u64, issued: Option<u64>) -> u64
    ensures { result ≡ time_taken due issued }
{
    match issued {
        None => 0,
        Some(issued) => due.saturating_sub(issued),
    }
}

// What serves a load that takes so many cycles.
fn load_reason(desc: &Desc, time: u64) -> Reason
    ensures { result ≡ load_reason desc.now time }
{
    if time <= desc.cache_hit_latency as u64 {
        Reason::LoadFirst
    } else if 0 < desc.cache_second_sets && time <= desc.cache_second_latency as u64 {
        Reason::LoadSecond
    } else {
        Reason::LoadMemory
    }
}

// Where an entry executes.
fn executes(kind: Kind, desc: &Desc, time: u64) -> Reason
    ensures { result ≡ executes kind desc.now time }
{
    match kind {
        Kind::Load => load_reason(desc, time),
        Kind::Mul => Reason::Multiplier,
        Kind::Div => Reason::Divider,
        Kind::Store => Reason::Store,
        _ => Reason::Simple,
    }
}

// What the oldest entry waits for.
fn awaits(kind: Kind) -> Reason
    ensures { result ≡ awaits kind }
{
    match kind {
        Kind::Load => Reason::Registers,
        Kind::Div => Reason::Divider,
        Kind::Store => Reason::Store,
        _ => Reason::Simple,
    }
}

// Why the oldest entry hasn't retired that is Done.
fn stays_done(kind: Kind, cleared: bool) -> Reason
    ensures { result ≡ stays_done kind cleared }
{
    match kind {
        Kind::Store => {
            if cleared {
                Reason::StorePort
            } else {
                Reason::Clear
            }
        }
        _ => Reason::Resolve,
    }
}

// Whether an entry that is Done in the cycle `due` would be so by this cycle, had it begun so many cycles sooner, if
// any.
fn is_made_late(number: u32, due: u64, times: u64) -> bool
    ensures { result ≡ is_made_late number due times }
{
    0 < times && due <= (number as u64).saturating_add(times)
}

// Why the oldest entry hasn't retired that executes.
fn stays_busy(
    desc: &Desc,
    kept: &[Kept; KEPT_PLACES],
    number: u32,
    due: u64,
    entry: &Entry,
) -> Reason
    ensures { result ≡ stays_busy desc.now kept.now number due entry.now }
{
    if is_made_late(number, due, times_kept(kept, entry.serial)) {
        return Reason::Defence;
    }
    executes(entry.item.kind, desc, time_taken(due, entry.issued))
}

// Why the oldest entry hasn't retired, by how far it is.
fn keeps(desc: &Desc, kept: &[Kept; KEPT_PLACES], number: u32, entry: &Entry) -> Reason
    ensures { result ≡ keeps entry.now.state desc.now kept.now number entry.now }
{
    match entry.state {
        Progress::Waiting => awaits(entry.item.kind),
        Progress::Busy(due) => stays_busy(desc, kept, number, due, entry),
        Progress::Done => stays_done(entry.item.kind, entry.cleared),
    }
}

// Why the oldest entry keeps the slots.
fn head_reason(desc: &Desc, known: &Known, now: &Past, number: u32, entry: &Entry) -> Reason
    ensures { result ≡ head_reason desc.now known.now now.now number entry.now }
{
    if entry.item.kind == Kind::Call {
        return Reason::Call;
    }
    if is_from(now.renamed, entry.serial) {
        return now.late;
    }
    if is_from(known.past.renamed, entry.serial) && entry.state != Progress::Waiting {
        return known.past.late;
    }
    keeps(desc, &known.kept, number, entry)
}

/// Why slots are empty in the cycle of this number, by how the run ended, if it did, and the oldest entry that is left,
/// if there is one.
pub(crate) fn reason_of(
    desc: &Desc,
    known: &Known,
    now: &Past,
    number: u32,
    end: Option<End>,
    rob: &RobRing,
) -> Reason
    ensures { result ≡ reason_of desc.now known.now now.now number end (slice_get rob.now.entries 0) }
{
    if end.is_some() {
        return Reason::End;
    }
    if rob.len() == 0 {
        return now.late;
    }
    head_reason(desc, known, now, number, rob.lend(0))
}
