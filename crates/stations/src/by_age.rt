//! The stations by age, each entry in a place of its own.
ghost use Rattle.std.specs.Prelude.{◌≡◌, ◌≢◌, ◌+◌, ◌-◌, ◌<◌, ◌≤◌, ℕ, [], ◌∷◌, ◌++◌, length, map, IfOk, IfSome, Some, slice_get, nat_lt, nat_le};
ghost use Rattle.std.specs.List.{filter, list_any, remove, All, AllPairs};
ghost use Rattle.std.specs.Option.{option_map};
ghost use Rattle.stations.specs.Stations.{NextAble, Rise, Station, Stations, awaits_none, is_able, left_wanting, ready_part, struck};
ghost use Rattle.stations.specs.Places.{station, is_youngest};

use crate::marks::without_mark;
use crate::occupant::Occupant;
use crate::places::{all_places, empty_places, push_within, take_free};
use crate::waking::{GROUPS, leave_at, note_waiter, wake_all};
use crate::wants::{Part, Wants};
use machine_desc::Desc;
use rv_types::NoMemory;
use std::alloc::Global;
use std::marker::Model;
use word_bits::{has_wide_bit, next_wide_bit, with_wide_bit};

/// The entries that wait, in `core.stations` places, in which they don't move. Beside the places stand the numbers of
/// those that are taken, by age, and of those that are free. Positions count the entries by age, from the oldest, which
/// has 0.
#[derive(Drop)]
pub struct Stations {
    places: Vec<Occupant>,
    ages: Vec<u32>,
    free: Vec<u32>,
    // For each group of serials, the places where such a serial may be awaited, as the bits of a word.
    waiters: [u128; GROUPS],
    // The positions of the entries that may issue, or of which a part may, as the bits of a word.
    able: u128,
    // How many entries have left their places, modulo 2^32. With it a position is guessed: no more rests on it.
    gone: u32,
}

impl Model for Stations {
    ghost use Rattle.std.specs.Prelude.{◌≡◌, ◌+◌, ◌<◌, ◌≤◌, ◌^◌, vec_len, vec_capacity};
    ghost use Rattle.stations.specs.Stations.{Stations};
    ghost use Rattle.stations.specs.Places.{held_of, NotesAble, NotesWaiters, Placed};

    ghost Value = { Stations };

    ghost view = { λ s. record { held = held_of s.places.items s.ages.items; room = vec_len s.places } };

    ghost invariant = { λ s. Placed s.places.items s.ages.items s.free.items
        × (vec_len s.ages + vec_len s.free ≡ vec_len s.places)
        × (vec_len s.places ≤ vec_capacity s.ages) × (vec_len s.places ≤ vec_capacity s.free)
        × (vec_len s.places ≤ 96) × NotesWaiters s.places.items s.waiters
        × NotesAble (held_of s.places.items s.ages.items) s.able };
}

impl Stations {
    /// Stations with `core.stations` places, all free. The one error is want of memory.
    pub fn new(alloc: Global, desc: &Desc) -> Result<Stations, NoMemory>
        ensures { IfOk result (λ s. s ≡ record { held = []; room = desc.now.core_stations }) }
    {
        let room = desc.core_stations;
        let places = empty_places(alloc, room)?;
        let ages = Vec::with_capacity(alloc, room as usize)?;
        let free = all_places(alloc, room)?;
        Ok(Stations {
            places,
            ages,
            free,
            waiters: [0; GROUPS],
            able: 0,
            gone: 0,
        })
    }

    /// How many entries wait in stations.
    pub fn len(&self) -> u32
        ensures len { result ≡ length self.now.held }
        ensures within { result ≤ self.now.room }
    {
        self.ages.len() as u32
    }

    /// How many places are free.
    pub fn free(&self) -> u32
        ensures { result ≡ self.now.room - length self.now.held }
    {
        self.free.len() as u32
    }

    /// Gives a free place to an entry, which is the youngest then, with what it needs and the serials that it awaits.
    pub fn insert(&mut self, serial: u64, wants: Wants, awaits: [Option<u64>; 2])
        requires room { length self.old.held < self.old.room }
        requires youngest { All (λ s. s.serial < serial) self.old.held }
        ensures { (place : ℕ) × (self.new ≡ record self.old {
          held = self.old.held ++ record { serial = serial; wants = wants; awaits = awaits; place = place } ∷ [];
        }) }
    {
        let place = take_free(&mut self.free);
        let position = self.ages.len() as u32;
        let came = self.gone.wrapping_add(position);
        let occupant = Occupant::new(serial, wants, awaits, came);
        note_waiter(&mut self.waiters, place, &occupant);
        self.able = with_wide_bit(self.able, position, occupant.is_able());
        self.places[place as usize] = occupant;
        push_within(&mut self.ages, place);
    }

    /// Tells all stations that the entry with this serial gives its value: none awaits it any more.
    pub fn wake(&mut self, serial: u64)
        ensures { self.new ≡ record self.old { held = map (struck serial) self.old.held } }
    {
        wake_all(
            &mut self.places,
            &self.ages,
            &mut self.waiters,
            &mut self.able,
            self.gone,
            serial,
        );
    }

    /// Whether the entry at a position awaits nothing. Kept for who looks at a core from outside.
    pub fn ready(&self, i: u32) -> bool
        requires { i < length self.now.held }
        ensures { option_map awaits_none (slice_get self.now.held i) ≡ Some result }
    {
        self.occupant(i).is_ready()
    }

    /// Whether the source that a part of the entry at a position needs is awaited no more, or there is none.
    pub fn ready_part(&self, i: u32, part: Part) -> bool
        requires { i < length self.now.held }
        ensures { option_map (ready_part part) (slice_get self.now.held i) ≡ Some result }
    {
        self.occupant(i).is_ready_part(part)
    }

    /// Whether the entry at a position is able to issue: all is there that it, or a part of it, waits for. Kept for who
    /// looks at stations from outside: Issue asks for the next that is.
    pub fn able(&self, i: u32) -> bool
        requires { i < length self.now.held }
        ensures { option_map is_able (slice_get self.now.held i) ≡ Some result }
    {
        has_wide_bit(self.able, i)
    }

    /// The first position from this one on whose entry is able to issue, or a part of it. None where there is none.
    pub fn next_able(&self, from: u32) -> Option<u32>
        requires { from ≤ length self.now.held }
        ensures next { NextAble self.now.held from result }
        ensures few { IfSome result (λ i. i < 96) }
    {
        next_wide_bit(self.able, from)
    }

    /// Whether there is an entry that is able to issue, or a part of it.
    pub fn any_able(&self) -> bool
        ensures { result ≡ list_any is_able self.now.held }
    {
        self.next_able(0).is_some()
    }

    /// The entry at a position needs something else from now on: a part of it has issued.
    pub fn leave(&mut self, i: u32, wants: Wants)
        requires { i < length self.old.held }
        ensures { self.new ≡ record self.old { held = left_wanting i wants self.old.held } }
    {
        let able = leave_at(&mut self.places, self.ages[i as usize], wants);
        self.able = with_wide_bit(self.able, i, able);
    }

    /// The serial of the entry at a position.
    pub fn serial(&self, i: u32) -> u64
        requires { i < length self.now.held }
        ensures { option_map (λ s. s.serial) (slice_get self.now.held i) ≡ Some result }
    {
        self.occupant(i).serial
    }

    /// The place of the entry at a position. No two entries have the same.
    pub fn place(&self, i: u32) -> u32
        requires { i < length self.now.held }
        ensures place { option_map (λ s. s.place) (slice_get self.now.held i) ≡ Some result }
        ensures below { result < self.now.room }
        ensures differ { AllPairs (λ a b. a.place ≢ b.place) self.now.held }
        ensures few { All (λ s. s.place < 96) self.now.held }
    {
        self.ages[i as usize]
    }

    /// Frees the place of the entry at a position.
    #[inline(always)]
    pub fn remove(&mut self, i: u32)
        requires { i < length self.old.held }
        ensures { self.new ≡ record self.old { held = remove self.old.held i } }
    {
        let place = self.ages.remove(i as usize);
        self.able = without_mark(self.able, i);
        self.gone = self.gone.wrapping_add(1);
        push_within(&mut self.free, place);
    }

    /// Frees the places of the entries from a serial on.
    pub fn drop_from(&mut self, serial: u64)
        ensures { self.new ≡ record self.old { held = filter (λ s. nat_lt s.serial serial) self.old.held } }
    {
        for turn in 0..self.len() {
            if !self.is_youngest_from(serial) {
                return;
            }
            let youngest = self.len() - 1;
            self.remove(youngest);
        }
    }

    // The entry at a position, in its place.
    fn occupant(&self, i: u32) -> &Occupant
        requires { i < length self.now.held }
        ensures { (place : ℕ) × (slice_get self.now.held i ≡ Some (station place result.now)) }
    {
        let place = self.ages[i as usize];
        &self.places[place as usize]
    }

    // Whether there is an entry and the youngest one's serial is this one or a later one.
    fn is_youngest_from(&self, serial: u64) -> bool
        ensures value { result ≡ is_youngest (λ s. nat_le serial s.serial) self.now.held }
        ensures rise { Rise self.now.held }
    {
        match self.ages.len() as u32 {
            0 => false,
            entries => serial <= self.occupant(entries - 1).serial,
        }
    }
}
