//! The numbers of a run, as they are counted event by event.
ghost use Rattle.std.specs.Prelude.{◌≡◌, ◌<◌, ◌+◌, ◌-◌, ◌^◌, ◌++◌, List, ℕ, [], Option, Some, false, true};
ghost use Rattle.std.specs.Prelude.{length, slice_get, slice_index_or};

use crate::names::COUNTED;
use crate::places::{further_of, place_of, plain_place};
use std::marker::Model;
use window_model::Event;

/// The numbers of a run, seen as a list in their order. They take no memory, and stop at the greatest of 64 bits.
#[derive(Drop)]
pub struct Counts {
    numbers: [u64; COUNTED],
}

impl Model for Counts {
    ghost use Rattle.std.specs.Prelude.{List, ℕ};

    ghost Value = { List ℕ };

    ghost view = { λ c. c.numbers };
}

ghost use Rattle.window_model.specs.Row.{Row as RowText};
ghost use Rattle.run_counts.specs.Counted.{names, numbers};
ghost use Rattle.window_model.specs.declared.Event.{Event as EventText};
ghost use Rattle.run_counts.specs.inner.Counting.{AtMost, is_plain, is_plain_place};
ghost use Rattle.run_counts.specs.inner.Counting.{number_with, after_event, numbers_by, sums};

// Adds to the number at a place.
fn add_at(numbers: &mut [u64; COUNTED], place: usize, n: u64)
    requires { place < COUNTED }
    ensures adds { (at : List ℕ) → slice_get names place ≡ Some at
        → numbers.new ≡ numbers_by (λ name k. number_with name at n k) names numbers.old }
    ensures few { is_plain_place place ≡ false → (most : ℕ) → AtMost most numbers.old → AtMost most numbers.new }
{
    numbers[place] = numbers[place].saturating_add(n);
}

// Adds one to the number at a place, which is less than the greatest of 64 bits.
#[inline(always)]
fn add_one(numbers: &mut [u64; COUNTED], place: usize)
    requires place { place < COUNTED }
    requires less { slice_index_or numbers.old place 0 < 2 ^ 64 - 1 }
    ensures adds { (at : List ℕ) → slice_get names place ≡ Some at
        → numbers.new ≡ numbers_by (λ name k. number_with name at 1 k) names numbers.old }
    ensures few { (most : ℕ) → AtMost most numbers.old → AtMost (most + 1) numbers.new }
{
    numbers[place] += 1;
}

// Adds what an event adds that comes right behind another, if there is one.
fn count_event(numbers: &mut [u64; COUNTED], before: Option<Event>, event: Event)
    ensures adds { numbers.new ≡ numbers_by (λ name k. after_event name before event k) names numbers.old }
    ensures few { is_plain event ≡ false → (most : ℕ) → AtMost most numbers.old → AtMost most numbers.new }
{
    add_at(numbers, place_of(before, event), 1);
    if let Some((place, n)) = further_of(event) {
        add_at(numbers, place, n);
    }
}

// Adds the numbers of another part of the run.
fn add_each(numbers: &mut [u64; COUNTED], others: &[u64; COUNTED])
    ensures { numbers.new ≡ sums numbers.old others.now }
{
    for place in 0..COUNTED {
        numbers[place] = numbers[place].saturating_add(others[place]);
    }
}

impl Counts {
    /// The numbers of no row.
    pub fn new() -> Self
        ensures { result ≡ numbers [] }
    {
        Counts {
            numbers: [0; COUNTED],
        }
    }

    /// Counts an event if it tells no amount, and says whether it tells none. One that tells an amount changes no
    /// number. The numbers to which such events add must be far from the greatest of 64 bits.
    #[inline(always)]
    pub fn count_plain(&mut self, event: &Event) -> bool
        requires few { AtMost (2 ^ 63) self.old }
        ensures plain { result ≡ is_plain event.now }
        ensures counted { is_plain event.now ≡ true → (before : Option EventText)
            → self.new ≡ numbers_by (λ name k. after_event name before event.now k) names self.old }
        ensures stays { is_plain event.now ≡ false → self.new ≡ self.old }
        ensures few { (most : ℕ) → AtMost most self.old → AtMost (most + 1) self.new }
    {
        match plain_place(event) {
            Some(place) => {
                add_one(&mut self.numbers, place);
                true
            }
            None => false,
        }
    }

    /// Counts an event that comes right behind another, if there is one.
    pub fn count_event(&mut self, before: Option<Event>, event: Event)
        ensures adds { self.new ≡ numbers_by (λ name k. after_event name before event k) names self.old }
        ensures few { is_plain event ≡ false → (most : ℕ) → AtMost most self.old → AtMost most self.new }
    {
        count_event(&mut self.numbers, before, event);
    }

    /// Adds the numbers of the rows that come behind those of which these are.
    pub fn add(&mut self, others: &Counts)
        ensures { (rows behind : List RowText) → self.old ≡ numbers rows → others.now ≡ numbers behind
            → self.new ≡ numbers (rows ++ behind) }
    {
        add_each(&mut self.numbers, &others.numbers);
    }

    /// The numbers, in their order.
    pub fn as_slice(&self) -> &[u64]
        ensures value { result.now ≡ self.now }
        ensures len { length result.now ≡ COUNTED }
    {
        &self.numbers
    }
}
