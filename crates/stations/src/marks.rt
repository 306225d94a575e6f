//! Which positions, by age, hold an entry that may issue, or of which a part may: the bits of a word.
ghost use Rattle.std.specs.Prelude.{◌≡◌, ◌≢◌, ◌+◌, ◌<◌, ◌≤◌, ℕ, vec_len};
ghost use Rattle.std.specs.Int.{bit_at};
ghost use Rattle.std.specs.List.{AllPairs};
ghost use Rattle.stations.specs.Places.{NotesAble, NotesAbleBut, IsPosition, held_of};

use crate::occupant::Occupant;
use word_bits::with_wide_bit;

/// The word without the mark of a position: those behind it move down by one.
pub(crate) fn without_mark(word: u128, position: u32) -> u128
    requires { position < 128 }
    ensures older { (b : ℕ) → b < position → bit_at result b ≡ bit_at word b }
    ensures younger { (b : ℕ) → position ≤ b → b < 127 → bit_at result b ≡ bit_at word (b + 1) }
    ensures last { bit_at result 127 ≡ 0 }
{
    let below = (1 << position) - 1;
    (word & below) | (word >> 1 & !below)
}

// The first position from this one on at which a list has a place.
fn position_from(ages: &Vec<u32>, place: u32, from: u32) -> Option<u32>
    requires { vec_len ages.now ≤ 128 }
    ensures { IsPosition ages.now.items place from result }
{
    for i in from as usize..ages.len() {
        if ages[i] == place {
            return Some(i as u32);
        }
    }
    None
}

// The position at which a list has a place. It is looked for from a guess on, and then from the first one on.
fn position_of(ages: &Vec<u32>, place: u32, guess: u32) -> Option<u32>
    requires { vec_len ages.now ≤ 128 }
    ensures { IsPosition ages.now.items place 0 result }
{
    match position_from(ages, place, guess) {
        Some(i) => Some(i),
        None => position_from(ages, place, 0),
    }
}

/// The entry in a place is marked, if the place is taken and it, or a part of it, may issue. Its position is guessed:
/// it has moved down by one with each older entry that has left since it came, and by none with a younger one.
pub(crate) fn mark_able(
    places: &Vec<Occupant>,
    ages: &Vec<u32>,
    able: &mut u128,
    place: u32,
    gone: u32,
)
    requires within { place < vec_len places.now }
    requires few { vec_len ages.now ≤ 128 }
    requires differ { AllPairs (λ p q. p ≢ q) ages.now.items }
    requires noted { NotesAbleBut place places.now.items ages.now.items able.old }
    ensures { NotesAble (held_of places.now.items ages.now.items) able.new }
{
    let occupant = &places[place as usize];
    if !occupant.is_able() {
        return;
    }
    if let Some(position) = position_of(ages, place, occupant.came.wrapping_sub(gone)) {
        *able = with_wide_bit(*able, position, true);
    }
}
