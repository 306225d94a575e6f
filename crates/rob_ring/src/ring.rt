//! The ring of the entries in flight.
ghost use Rattle.std.specs.Prelude.{◌≡◌, ◌≢◌, ◌<◌, ◌≤◌, ◌^◌, ◌++◌, ◌∷◌, [], length, take, drop};
ghost use Rattle.std.specs.Prelude.{slice_get, slice_set, None, Some, IfOk, IfSome, true};
ghost use Rattle.std.specs.List.{All};
ghost use Rattle.window_model.specs.declared.Entry.{Entry};
ghost use Rattle.window_model.specs.declared.Progress.TheVariants.{Done};
ghost use Rattle.window_model.specs.Order.{is_busy};
ghost use Rattle.window_model.specs.Serials.{Rise, below};
ghost use Rattle.window_model.specs.Clear.{cleared_one};
ghost use Rattle.rob_ring.specs.Issued.{as_resolved, with_issued};
ghost use Rattle.rob_ring.specs.Ring.{Next, Ring, in_execution, is_open, is_unsafe};

use crate::flags::{WORDS, add_flag, drop_flag, keep_flags, next_flag, put_flag};
use crate::issued::Issued;
use circular_buffer::HeapCircularBuffer;
use machine_desc::Desc;
use rv_types::NoMemory;
use std::alloc::Global;
use std::marker::Model;
use window_model::{Entry, Progress, Window, position_of};

/// The entries in flight, oldest first, and room for `core.rob` of them. Positions count from the oldest, which has 0.
#[derive(Drop)]
pub struct RobRing {
    items: HeapCircularBuffer<Entry>,
    // By position, whether the entry executes.
    busy: [u64; WORDS],
    // By position, whether the entry isn't settled.
    unsettled: [u64; WORDS],
    // By position, whether the entry may yet squash what comes after it.
    unsafes: [u64; WORDS],
    // The oldest entry's serial where none is missing up to the youngest's: a guess, by which an entry is looked for
    // first.
    counted_from: u64,
}

/// An entry in its place.
#[derive(Clone, Copy)]
pub struct Found<'a> {
    /// The position of the entry, counted from the oldest one.
    pub position: u32,
    /// The entry.
    pub entry: &'a Entry,
}

impl Model for RobRing {
    ghost use Rattle.rob_ring.specs.Ring.{Ring};
    ghost use Rattle.rob_ring.specs.Flags.{Flagged};

    ghost Value = { Ring };

    ghost view = { λ r. record { entries = r.items.items; room = r.items.capacity } };

    ghost invariant = { λ r. Flagged r.items.items r.items.capacity r.busy r.unsettled r.unsafes };
}

impl RobRing {
    /// An empty ring with room for `core.rob` entries. The one error is want of memory.
    pub fn new(alloc: Global, desc: &Desc) -> Result<RobRing, NoMemory>
        ensures { IfOk result (λ r. r ≡ record { entries = []; room = desc.now.core_rob }) }
    {
        let items = HeapCircularBuffer::with_capacity(alloc, desc.core_rob as usize)?;
        Ok(RobRing {
            items,
            busy: [0; WORDS],
            unsettled: [0; WORDS],
            unsafes: [0; WORDS],
            counted_from: 0,
        })
    }

    /// How many entries there are.
    pub fn len(&self) -> u32
        ensures len { result ≡ length self.now.entries }
        ensures within { result ≤ self.now.room }
    {
        self.items.len() as u32
    }

    /// Adds an entry, which is the youngest then.
    pub fn push(&mut self, entry: Entry)
        requires { length self.old.entries < self.old.room }
        ensures { self.new ≡ record self.old { entries = self.old.entries ++ entry ∷ [] } }
    {
        let len = self.len();
        add_flag(&mut self.busy, len, is_busy(entry.state));
        add_flag(&mut self.unsettled, len, !entry.is_settled());
        add_flag(&mut self.unsafes, len, !entry.is_safe());
        self.counted_from = entry.serial.wrapping_sub(len as u64);
        let _ = self.items.try_push_back(entry);
    }

    /// The oldest entry, None where there is none. Kept for who looks at a window from outside: the phases lend
    /// entries.
    pub fn head(&self) -> Option<Entry>
        ensures { result ≡ slice_get self.now.entries 0 }
    {
        self.items.front().copied()
    }

    /// The entry at a position, as a copy. Kept for who looks at a window from outside: the phases lend entries.
    pub fn at(&self, i: u32) -> Entry
        requires { i < length self.now.entries }
        ensures { slice_get self.now.entries i ≡ Some result }
    {
        *self.lend(i)
    }

    /// Lends the entry at a position, where a copy isn't needed.
    pub fn lend(&self, i: u32) -> &Entry
        requires { i < length self.now.entries }
        ensures { slice_get self.now.entries i ≡ Some result.now }
    {
        self.items.get(i as usize).unwrap()
    }

    /// Puts an entry in the place of the one at a position, whatever becomes of it. Kept for who makes a window from
    /// outside: each phase has a call of its own, which changes what that phase may.
    pub fn set(&mut self, i: u32, entry: Entry)
        requires { i < length self.old.entries }
        ensures { self.new ≡ record self.old { entries = slice_set self.old.entries i entry } }
    {
        put_flag(&mut self.busy, i, is_busy(entry.state));
        put_flag(&mut self.unsettled, i, !entry.is_settled());
        put_flag(&mut self.unsafes, i, !entry.is_safe());
        put_entry(&mut self.items, i, &entry);
    }

    /// What Issue makes of the entry at a position is written in its place: whether it executes may change, and it is
    /// as safe as it was.
    pub fn issue(&mut self, i: u32, issued: &Issued)
        requires within { i < length self.old.entries }
        requires alike { (e : Entry) → slice_get self.old.entries i ≡ Some e
            → is_unsafe (with_issued issued.now e) ≡ is_unsafe e }
        ensures { (e : Entry) → slice_get self.old.entries i ≡ Some e
            → self.new ≡ record self.old { entries = slice_set self.old.entries i (with_issued issued.now e) } }
    {
        put_flag(&mut self.busy, i, is_busy(issued.state));
        issue_entry(&mut self.items, i, issued);
    }

    /// The entry at a position is set down as resolved.
    pub fn resolve(&mut self, i: u32)
        requires { i < length self.old.entries }
        ensures { (e : Entry) → slice_get self.old.entries i ≡ Some e
            → self.new ≡ record self.old { entries = slice_set self.old.entries i (as_resolved e) } }
    {
        let (stays_open, stays_unsafe) = resolve_entry(&mut self.items, i);
        put_flag(&mut self.unsettled, i, stays_open);
        put_flag(&mut self.unsafes, i, stays_unsafe);
    }

    /// The entry at a position is set down as cleared.
    pub fn clear(&mut self, i: u32)
        requires { i < length self.old.entries }
        ensures { (e : Entry) → slice_get self.old.entries i ≡ Some e
            → self.new ≡ record self.old { entries = slice_set self.old.entries i (cleared_one e) } }
    {
        let (is_open, is_unsafe) = clear_entry(&mut self.items, i);
        put_flag(&mut self.unsettled, i, is_open);
        put_flag(&mut self.unsafes, i, is_unsafe);
    }

    /// The entry at a position becomes Done.
    pub fn finish(&mut self, i: u32)
        requires { i < length self.old.entries }
        ensures { (e : Entry) → slice_get self.old.entries i ≡ Some e
            → self.new ≡ record self.old { entries = slice_set self.old.entries i (record e { state = Done }) } }
    {
        put_flag(&mut self.busy, i, false);
        let is_unsafe = finish_entry(&mut self.items, i);
        put_flag(&mut self.unsafes, i, is_unsafe);
    }

    /// Keeps the oldest `len` entries and drops the younger ones.
    pub fn cut(&mut self, len: u32)
        ensures { self.new ≡ record self.old { entries = take len self.old.entries } }
    {
        self.busy = keep_flags(self.busy, len);
        self.unsettled = keep_flags(self.unsettled, len);
        self.unsafes = keep_flags(self.unsafes, len);
        self.items.truncate_back(len as usize);
    }

    /// Drops the oldest entry, which has retired.
    pub fn pop_head(&mut self)
        requires { 0 < length self.old.entries }
        ensures { self.new ≡ record self.old { entries = drop 1 self.old.entries } }
    {
        drop_flag(&mut self.busy);
        drop_flag(&mut self.unsettled);
        drop_flag(&mut self.unsafes);
        self.counted_from = self.counted_from.wrapping_add(1);
        let _ = self.items.pop_front();
    }

    /// The first position from one on whose entry executes.
    pub fn next_busy(&self, from: u32) -> Option<u32>
        ensures next { Next in_execution self.now.entries from result }
        ensures within { IfSome result (λ i. i < self.now.room) }
        ensures few { self.now.room < 2 ^ 32 }
    {
        next_flag(self.busy, from)
    }

    /// The first position from one on whose entry isn't settled: a branch or JALR that isn't resolved, or a store that
    /// isn't cleared.
    pub fn next_open(&self, from: u32) -> Option<u32>
        ensures next { Next is_open self.now.entries from result }
        ensures within { IfSome result (λ i. i < self.now.room) }
        ensures few { self.now.room < 2 ^ 32 }
    {
        next_flag(self.unsettled, from)
    }

    /// The first position from one on whose entry may yet squash what comes after it.
    pub fn next_unsafe(&self, from: u32) -> Option<u32>
        ensures next { Next is_unsafe self.now.entries from result }
        ensures within { IfSome result (λ i. i < self.now.room) }
        ensures few { self.now.room < 2 ^ 32 }
    {
        next_flag(self.unsafes, from)
    }

    /// The position of the entry with this serial, or the one at which it would stand: how many entries have a serial
    /// below it. Serials rise by one, but for gaps that squashes leave: where no entry behind it was squashed it is
    /// counted back from the youngest, else `position_of` of `window_model` finds it.
    pub fn position_of(&self, serial: u64) -> u32
        requires rise { Rise self.now.entries }
        ensures count { result ≡ length (below serial self.now.entries) }
        ensures older { take result self.now.entries ≡ below serial self.now.entries }
        ensures within { result ≤ length self.now.entries }
    {
        if let Some(found) = self.guessed(serial) {
            return found.position;
        }
        position_of(self, serial)
    }

    /// The entry with this serial and its position, None where no entry has it.
    #[inline(always)]
    pub fn find(&self, serial: u64) -> Option<Found<'_>>
        requires rise { Rise self.now.entries }
        ensures position { IfSome result (λ f. f.position ≡ length (below serial self.now.entries)) }
        ensures entry { IfSome result (λ f. slice_get self.now.entries f.position ≡ Some f.entry.now) }
        ensures serial { IfSome result (λ f. f.entry.now.serial ≡ serial) }
        ensures lacking { result ≡ None → All (λ e. e.serial ≢ serial) self.now.entries }
    {
        if let Some(found) = self.guessed(serial) {
            return Some(found);
        }
        if self.begins_behind(serial) {
            return None;
        }
        self.searched(serial)
    }

    // Whether the oldest entry is younger than an entry with this serial would be, or there is none.
    fn begins_behind(&self, serial: u64) -> bool
        requires rise { Rise self.now.entries }
        ensures { result ≡ true → All (λ e. e.serial ≢ serial) self.now.entries }
    {
        if self.len() == 0 {
            return true;
        }
        serial < self.lend(0).serial
    }

    // The entry with this serial and its position, by `position_of` of `window_model`.
    #[inline(never)]
    fn searched(&self, serial: u64) -> Option<Found<'_>>
        requires rise { Rise self.now.entries }
        ensures position { IfSome result (λ f. f.position ≡ length (below serial self.now.entries)) }
        ensures entry { IfSome result (λ f. slice_get self.now.entries f.position ≡ Some f.entry.now) }
        ensures serial { IfSome result (λ f. f.entry.now.serial ≡ serial) }
        ensures lacking { result ≡ None → All (λ e. e.serial ≢ serial) self.now.entries }
    {
        let position = position_of(self, serial);
        if position >= self.len() {
            return None;
        }
        let entry = self.lend(position);
        if entry.serial != serial {
            return None;
        }
        Some(Found { position, entry })
    }

    // The entry with this serial and its position, where the guess finds it.
    fn guessed(&self, serial: u64) -> Option<Found<'_>>
        ensures entry { IfSome result (λ f. slice_get self.now.entries f.position ≡ Some f.entry.now) }
        ensures serial { IfSome result (λ f. f.entry.now.serial ≡ serial) }
    {
        let position = serial.wrapping_sub(self.counted_from);
        if position >= self.len() as u64 {
            return None;
        }
        let position = position as u32;
        let entry = self.lend(position);
        if entry.serial != serial {
            return None;
        }
        Some(Found { position, entry })
    }
}

// Puts an entry in the place of the one at a position.
fn put_entry(items: &mut HeapCircularBuffer<Entry>, i: u32, entry: &Entry)
    requires { i < length items.old.items }
    ensures { items.new ≡ record items.old { items = slice_set items.old.items i entry.now } }
{
    if let Some(place) = items.get_mut(i as usize) {
        *place = *entry;
    }
}

// What Issue makes of the entry at a position is written in its place.
fn issue_entry(items: &mut HeapCircularBuffer<Entry>, i: u32, issued: &Issued)
    requires { i < length items.old.items }
    ensures { (e : Entry) → slice_get items.old.items i ≡ Some e
        → items.new ≡ record items.old { items = slice_set items.old.items i (with_issued issued.now e) } }
{
    if let Some(entry) = items.get_mut(i as usize) {
        entry.state = issued.state;
        entry.outcome = issued.outcome;
        entry.issued = issued.issued;
        entry.addr_due = issued.addr_due;
        entry.data_due = issued.data_due;
    }
}

// The entry at a position is set down as resolved. Whether it isn't settled, and whether it may yet squash what comes
// after it.
fn resolve_entry(items: &mut HeapCircularBuffer<Entry>, i: u32) -> (bool, bool)
    requires { i < length items.old.items }
    ensures open { (e : Entry) → slice_get items.old.items i ≡ Some e → result.0 ≡ is_open (as_resolved e) }
    ensures tells { (e : Entry) → slice_get items.old.items i ≡ Some e → result.1 ≡ is_unsafe (as_resolved e) }
    ensures wrote { (e : Entry) → slice_get items.old.items i ≡ Some e
        → items.new ≡ record items.old { items = slice_set items.old.items i (as_resolved e) } }
{
    if let Some(entry) = items.get_mut(i as usize) {
        entry.resolved = true;
        return (!entry.is_settled(), !entry.is_safe());
    }
    (false, false)
}

// The entry at a position is set down as cleared. Whether it isn't settled, and whether it may yet squash what comes
// after it.
fn clear_entry(items: &mut HeapCircularBuffer<Entry>, i: u32) -> (bool, bool)
    requires { i < length items.old.items }
    ensures open { (e : Entry) → slice_get items.old.items i ≡ Some e → result.0 ≡ is_open (cleared_one e) }
    ensures tells { (e : Entry) → slice_get items.old.items i ≡ Some e → result.1 ≡ is_unsafe (cleared_one e) }
    ensures wrote { (e : Entry) → slice_get items.old.items i ≡ Some e
        → items.new ≡ record items.old { items = slice_set items.old.items i (cleared_one e) } }
{
    if let Some(entry) = items.get_mut(i as usize) {
        entry.cleared = true;
        return (!entry.is_settled(), !entry.is_safe());
    }
    (false, false)
}

// The entry at a position becomes Done. Whether it may yet squash what comes after it.
fn finish_entry(items: &mut HeapCircularBuffer<Entry>, i: u32) -> bool
    requires { i < length items.old.items }
    ensures tells { (e : Entry) → slice_get items.old.items i ≡ Some e
        → result ≡ is_unsafe (record e { state = Done }) }
    ensures wrote { (e : Entry) → slice_get items.old.items i ≡ Some e
        → items.new ≡ record items.old { items = slice_set items.old.items i (record e { state = Done }) } }
{
    if let Some(entry) = items.get_mut(i as usize) {
        entry.state = Progress::Done;
        return !entry.is_safe();
    }
    false
}

// Whether an entry in this state executes.
fn is_busy(state: Progress) -> bool
    ensures { result ≡ is_busy state }
{
    match state {
        Progress::Busy(_) => true,
        _ => false,
    }
}

impl Window for RobRing {
    ghost entries = { λ r. r.entries };

    fn len(&self) -> u32 {
        RobRing::len(self)
    }

    fn lend(&self, i: u32) -> &Entry {
        RobRing::lend(self, i)
    }
}
