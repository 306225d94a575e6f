//! Who may await a serial: bits of words, so that an entry that gives its value wakes those alone.
ghost use Rattle.std.specs.Prelude.{◌≡◌, ◌≢◌, ◌<◌, ◌≤◌, ℕ, true, slice_index, slice_index_or, vec_len};
ghost use Rattle.std.specs.Int.{bit_at};
ghost use Rattle.std.specs.List.{AllPairs};
ghost use Rattle.word_bits.specs.Bits.{NextBit};
ghost use Rattle.stations.specs.Places.{NotesAble, NotesWaiters, able_in, awaits_in, held_of, is_in, nobody, wanting, after_wakeup};

use crate::marks::mark_able;
use crate::occupant::Occupant;
use crate::wants::Wants;
use word_bits::{next_wide_bit, with_wide_bit};

/// How many groups of serials there are: a serial's group is its remainder by this number.
pub(crate) const GROUPS: usize = 256;

// A place is noted for what one source of its entry awaits.
fn note_awaited(waiters: &mut [u128; GROUPS], place: u32, awaited: Option<u64>)
    requires { place < 128 }
    ensures here { (group : ℕ) → is_in group awaited ≡ true → bit_at (slice_index waiters.new group) place ≡ 1 }
    ensures others { (group p : ℕ) → p < 128 → bit_at (slice_index waiters.old group) p ≡ 1
        → bit_at (slice_index waiters.new group) p ≡ 1 }
{
    if let Some(serial) = awaited {
        let group = (serial % 256) as usize;
        let word = waiters[group];
        waiters[group] = with_wide_bit(word, place, true);
    }
}

/// A place is noted for what its entry awaits.
pub(crate) fn note_waiter(waiters: &mut [u128; GROUPS], place: u32, occupant: &Occupant)
    requires { place < 128 }
    ensures here { (group : ℕ) → awaits_in group occupant.now ≡ true
        → bit_at (slice_index waiters.new group) place ≡ 1 }
    ensures others { (group p : ℕ) → p < 128 → bit_at (slice_index waiters.old group) p ≡ 1
        → bit_at (slice_index waiters.new group) p ≡ 1 }
{
    note_awaited(waiters, place, occupant.first);
    note_awaited(waiters, place, occupant.second);
}

// The first place from this one on, among so many, that a word has.
fn next_place(word: u128, from: u32, room: u32) -> Option<u32>
    requires { room ≤ 128 }
    ensures { NextBit (bit_at word) from room result }
{
    if from >= room {
        return None;
    }
    match next_wide_bit(word, from) {
        Some(place) => { if place < room { Some(place) } else { None } }
        None => None,
    }
}

// The entry in a place awaits a serial no longer. Its note goes, if it awaits none of the serial's group any more.
fn wake_at(places: &mut Vec<Occupant>, waiters: &mut [u128; GROUPS], place: u32, serial: u64)
    requires within { place < vec_len places.old }
    requires few { vec_len places.old ≤ 128 }
    requires noted { NotesWaiters places.old.items waiters.old }
    ensures here { slice_index_or places.new.items place nobody
        ≡ after_wakeup serial (slice_index_or places.old.items place nobody) }
    ensures others { (p : ℕ) → p ≢ place
        → slice_index_or places.new.items p nobody ≡ slice_index_or places.old.items p nobody }
    ensures len { vec_len places.new ≡ vec_len places.old }
    ensures noted { NotesWaiters places.new.items waiters.new }
{
    places[place as usize].wake(serial);
    let group = serial % 256;
    if !places[place as usize].awaits_in(group) {
        let word = waiters[group as usize];
        waiters[group as usize] = with_wide_bit(word, place, false);
    }
}

/// The entry in a place needs something else from now on. Tells whether it, or a part of it, may issue then.
pub(crate) fn leave_at(places: &mut Vec<Occupant>, place: u32, wants: Wants) -> bool
    requires { place < vec_len places.old }
    ensures here { slice_index_or places.new.items place nobody
        ≡ wanting wants (slice_index_or places.old.items place nobody) }
    ensures others { (p : ℕ) → p ≢ place
        → slice_index_or places.new.items p nobody ≡ slice_index_or places.old.items p nobody }
    ensures len { vec_len places.new ≡ vec_len places.old }
    ensures able { result ≡ able_in (slice_index_or places.new.items place nobody) }
{
    places[place as usize].wants = wants;
    places[place as usize].is_able()
}

/// No entry awaits a serial any longer, and those that may issue then, or of which a part may, are marked. Only those
/// are looked at that are noted.
pub(crate) fn wake_all(
    places: &mut Vec<Occupant>,
    ages: &Vec<u32>,
    waiters: &mut [u128; GROUPS],
    able: &mut u128,
    gone: u32,
    serial: u64,
)
    requires few { vec_len places.old ≤ 128 }
    requires no_more { vec_len ages.now ≤ 128 }
    requires differ { AllPairs (λ p q. p ≢ q) ages.now.items }
    requires noted { NotesWaiters places.old.items waiters.old }
    requires able { NotesAble (held_of places.old.items ages.now.items) able.old }
    ensures woken { (p : ℕ) → slice_index_or places.new.items p nobody
        ≡ after_wakeup serial (slice_index_or places.old.items p nobody) }
    ensures len { vec_len places.new ≡ vec_len places.old }
    ensures noted { NotesWaiters places.new.items waiters.new }
    ensures able { NotesAble (held_of places.new.items ages.now.items) able.new }
{
    let room = places.len() as u32;
    let group = (serial % 256) as usize;
    if waiters[group] == 0 {
        return;
    }
    let mut from = 0;
    while let Some(place) = next_place(waiters[group], from, room) {
        wake_at(places, waiters, place, serial);
        mark_able(places, ages, able, place, gone);
        from = place + 1;
    }
}
