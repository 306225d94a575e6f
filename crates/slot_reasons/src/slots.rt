//! The slots of a run, as they are counted cycle by cycle.
ghost use Rattle.std.specs.Prelude.{◌≡◌, ◌<◌, ◌≤◌, ◌-◌, ◌++◌, ◌∷◌, List, ℕ, [], Some, length, slice_get};

use crate::reasons::reason_of;
use crate::{Known, Over, Past, Reason};
use machine_desc::Desc;
use rob_ring::RobRing;
use std::marker::Model;

/// How many numbers there are.
pub const SLOTS: usize = 19;

/// The slots of a run by reason, seen as a list of numbers in their order. They take no memory, and stop at the
/// greatest of 64 bits.
#[derive(Drop)]
pub struct Slots {
    numbers: [u64; SLOTS],
}

impl Model for Slots {
    ghost use Rattle.std.specs.Prelude.{List, ℕ};

    ghost Value = { List ℕ };

    ghost view = { λ s. s.numbers };
}

ghost use Rattle.run_counts.specs.inner.Counting.{number_with, numbers_by, sums};
ghost use Rattle.slot_reasons.specs.Slots.{Charge, charged, reason_name, slot_names, slots};
ghost use Rattle.slot_reasons.specs.inner.Filled.{filled};

/// The name of the number at a place (`docs/formats.md`, "The slots of a run").
#[tactic(auto, unfolding(crate::specs::Slots::slot_names))]
pub fn slot_name_at(place: usize) -> &'static [u8]
    requires { place < SLOTS }
    ensures name { slice_get slot_names place ≡ Some result.now }
    ensures short { length result.now ≤ 21 }
{
    match place {
        0 => b"slots_base",
        1 => b"slots_front_end",
        2 => b"slots_room",
        3 => b"slots_misprediction",
        4 => b"slots_violation",
        5 => b"slots_call",
        6 => b"slots_simple",
        7 => b"slots_multiplier",
        8 => b"slots_divider",
        9 => b"slots_store",
        10 => b"slots_load_first",
        11 => b"slots_load_second",
        12 => b"slots_load_memory",
        13 => b"slots_registers",
        14 => b"slots_resolve",
        15 => b"slots_clear",
        16 => b"slots_store_port",
        17 => b"slots_defence",
        _ => b"slots_end",
    }
}

// The place of the number of a reason.
#[tactic(auto, unfolding(crate::specs::Slots::slot_names))]
fn place_of(reason: Reason) -> usize
    ensures at { slice_get slot_names result ≡ Some (reason_name reason) }
    ensures few { result < SLOTS }
{
    match reason {
        Reason::FrontEnd => 1,
        Reason::Room => 2,
        Reason::Misprediction => 3,
        Reason::Violation => 4,
        Reason::Call => 5,
        Reason::Simple => 6,
        Reason::Multiplier => 7,
        Reason::Divider => 8,
        Reason::Store => 9,
        Reason::LoadFirst => 10,
        Reason::LoadSecond => 11,
        Reason::LoadMemory => 12,
        Reason::Registers => 13,
        Reason::Resolve => 14,
        Reason::Clear => 15,
        Reason::StorePort => 16,
        Reason::Defence => 17,
        Reason::End => 18,
    }
}

// Adds to the number at a place.
fn add_at(numbers: &mut [u64; SLOTS], place: usize, n: u64)
    requires { place < SLOTS }
    ensures { (at : List ℕ) → slice_get slot_names place ≡ Some at
        → numbers.new ≡ numbers_by (λ name k. number_with name at n k) slot_names numbers.old }
{
    numbers[place] = numbers[place].saturating_add(n);
}

// Adds the numbers of other cycles.
fn add_each(numbers: &mut [u64; SLOTS], others: &[u64; SLOTS])
    ensures { numbers.new ≡ sums numbers.old others.now }
{
    for place in 0..SLOTS {
        numbers[place] = numbers[place].saturating_add(others[place]);
    }
}

impl Slots {
    /// The slots of no cycle.
    pub fn new() -> Self
        ensures { result ≡ slots [] }
    {
        Slots {
            numbers: [0; SLOTS],
        }
    }

    /// Counts the slots of a cycle in which instructions retired, and tells how many stayed empty: these are still to
    /// be counted.
    #[inline(always)]
    pub fn fill(&mut self, desc: &Desc, retired: u64) -> u64
        ensures filled { self.new ≡ filled retired self.old }
        ensures empty { result ≡ desc.now.core_retire_width - retired }
    {
        add_at(&mut self.numbers, 0, retired);
        (desc.core_retire_width as u64).saturating_sub(retired)
    }

    /// Counts the slots of a cycle that stayed empty, once the others of it are counted: of one before which this was
    /// known, of which this is known now, and which left this and the reorder buffer so.
    pub fn lose(&mut self, desc: &Desc, known: &Known, now: &Past, over: &Over, rob: &RobRing)
        ensures { (cs : List Charge) → self.old ≡ filled over.now.retired (slots cs) → self.new ≡ slots (cs ++ charged
            desc.now known.now now.now over.now (slice_get rob.now.entries 0) ∷ []) }
    {
        let empty = (desc.core_retire_width as u64).saturating_sub(over.retired);
        let reason = reason_of(desc, known, now, over.number, over.end, rob);
        add_at(&mut self.numbers, place_of(reason), empty);
    }

    /// Adds the slots of the cycles that come behind those of which these are.
    pub fn add(&mut self, others: &Slots)
        ensures { (cs behind : List Charge) → self.old ≡ slots cs → others.now ≡ slots behind
            → self.new ≡ slots (cs ++ behind) }
    {
        add_each(&mut self.numbers, &others.numbers);
    }

    /// The numbers, in their order.
    pub fn as_slice(&self) -> &[u64]
        ensures value { result.now ≡ self.now }
        ensures len { length result.now ≡ SLOTS }
    {
        &self.numbers
    }
}
