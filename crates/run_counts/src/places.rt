//! Where a number stands that an event adds to.
ghost use Rattle.std.specs.Prelude.{◌≡◌, ◌<◌, MatchOption, IfSome, List, ℕ, Some, None, false, slice_get, true};
ghost use Rattle.run_counts.specs.Counted.{names, load_name, prefetch_name, way_name, store_name, squash_name, name_of, further_of};
ghost use Rattle.run_counts.specs.inner.Counting.{is_plain, is_plain_place};

use crate::names::COUNTED;
use window_model::{Event, Look, Way};

// The place of the number that counts a squash, by the event right before it.
#[tactic(auto, unfolding(crate::specs::Counted::names))]
fn squash_place(before: Option<Event>) -> usize
    ensures at { slice_get names result ≡ Some (squash_name before) }
    ensures few { result < COUNTED }
    ensures told { is_plain_place result ≡ false }
{
    match before {
        Some(Event::Bp(_, _)) => 22,
        Some(Event::Dp(_, _)) => 29,
        _ => 23,
    }
}

// The place of the number that counts where a load found a line.
#[tactic(auto, unfolding(crate::specs::Counted::names))]
fn load_place(look: Look) -> usize
    ensures at { slice_get names result ≡ Some (load_name look) }
    ensures few { result < COUNTED }
    ensures plain { is_plain_place result ≡ true }
{
    match look {
        Look::Hit => 9,
        Look::Second => 10,
        Look::Miss => 11,
        Look::Join => 12,
    }
}

// The place of the number that counts from where a line is prefetched.
#[tactic(auto, unfolding(crate::specs::Counted::names))]
fn prefetch_place(look: Look) -> usize
    ensures at { slice_get names result ≡ Some (prefetch_name look) }
    ensures few { result < COUNTED }
    ensures plain { is_plain_place result ≡ true }
{
    match look {
        Look::Second => 15,
        _ => 16,
    }
}

// The place of the number that counts how a branch or JALR went.
#[tactic(auto, unfolding(crate::specs::Counted::names))]
fn way_place(way: Way) -> usize
    ensures at { slice_get names result ≡ Some (way_name way) }
    ensures few { result < COUNTED }
    ensures plain { is_plain_place result ≡ true }
{
    match way {
        Way::Taken => 19,
        Way::NotTaken => 20,
        Way::Jump => 21,
    }
}

// The place of the number that counts a line that a store wrote.
#[tactic(auto, unfolding(crate::specs::Counted::names))]
fn store_place(found: bool) -> usize
    ensures at { slice_get names result ≡ Some (store_name found) }
    ensures few { result < COUNTED }
    ensures plain { is_plain_place result ≡ true }
{
    if found { 31 } else { 32 }
}

/// The place of the number to which an event that tells no amount adds one. `None`: it tells an amount.
#[tactic(auto, unfolding(crate::specs::Counted::names))]
pub(crate) fn plain_place(event: &Event) -> Option<usize>
    ensures at { MatchOption result (is_plain event.now ≡ false)
        (λ place. (is_plain event.now ≡ true) × (slice_get names place ≡ Some (name_of None event.now))) }
    ensures few { IfSome result (λ place. place < COUNTED) }
    ensures plain { IfSome result (λ place. is_plain_place place ≡ true) }
{
    match event {
        Event::Ret(_) => Some(0),
        Event::Fet(_) => Some(1),
        Event::Ren(_, _) => Some(2),
        Event::Alu(_) => Some(3),
        Event::Mul(_) => Some(4),
        Event::Agu(_) => Some(7),
        Event::Std(_) => Some(8),
        Event::Ld(_, _, look) => Some(load_place(*look)),
        Event::LdForward(_) => Some(13),
        Event::LdFault(_) => Some(14),
        Event::Pf(_, look) => Some(prefetch_place(*look)),
        Event::Fill(_) => Some(17),
        Event::Done(_) => Some(18),
        Event::Res(_, way) => Some(way_place(*way)),
        Event::Bp(_, _) => Some(24),
        Event::Bt(_, _) => Some(25),
        Event::Clr(_) => Some(26),
        Event::Vio(_) => Some(27),
        Event::Dp(_, _) => Some(28),
        Event::St(_, _, found) => Some(store_place(*found)),
        Event::Div(_, _) | Event::Sq(_) | Event::Call(_, _) => None,
    }
}

// The place of the number to which an event that tells an amount adds one, by the event right before it in its cycle.
#[tactic(auto, unfolding(crate::specs::Counted::names))]
fn told_place(before: Option<Event>, event: Event) -> usize
    requires { is_plain event ≡ false }
    ensures at { slice_get names result ≡ Some (name_of before event) }
    ensures few { result < COUNTED }
    ensures told { is_plain_place result ≡ false }
{
    match event {
        Event::Sq(_) => squash_place(before),
        Event::Call(_, _) => 33,
        // a division: nothing else tells an amount
        _ => 5,
    }
}

/// The place of the number to which an event adds one, by the event right before it in its cycle.
pub(crate) fn place_of(before: Option<Event>, event: Event) -> usize
    ensures at { slice_get names result ≡ Some (name_of before event) }
    ensures few { result < COUNTED }
    ensures told { is_plain event ≡ false → is_plain_place result ≡ false }
{
    match plain_place(&event) {
        Some(place) => place,
        None => told_place(before, event),
    }
}

/// What an event adds to a further number, where it tells an amount: the number's place, and how much.
#[tactic(auto, unfolding(crate::specs::Counted::names))]
pub(crate) fn further_of(event: Event) -> Option<(usize, u64)>
    ensures at { MatchOption result (further_of event ≡ None)
        (λ f. (at : List ℕ) × (further_of event ≡ Some (at, f.1)) × (slice_get names f.0 ≡ Some at)) }
    ensures few { IfSome result (λ f. f.0 < COUNTED) }
    ensures told { IfSome result (λ f. is_plain_place f.0 ≡ false) }
{
    match event {
        Event::Div(_, time) => Some((6, time as u64)),
        Event::Sq(count) => Some((30, count as u64)),
        Event::Call(_, count) => Some((34, count as u64)),
        _ => None,
    }
}
