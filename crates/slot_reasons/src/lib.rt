//! Why slots of retirement stay empty: each slot of each cycle has one reason, and they are counted by reason.
//!
//! Rules: `specs/Reasons.antt`, the reason of a cycle, from the written machine's state once it is over, from the
//! events up to then and from what is kept in mind; `specs/Kept.antt`, what the defence alone keeps from issuing, and
//! in how many cycles it did; `specs/Slots.antt`, the slots of a run; `docs/formats.md`, "The slots of a run".
//!
//! Promises: `specs/Laws.antt`: the slots of all reasons are as many as the cycles have, and the items that are counted
//! as fetched and not renamed are as many as the queue has. What is counted cycle by cycle is what the definition
//! counts of a run. One walk over a cycle's events counts them and finds what comes late.
//!
//! Clauses: `each_slot_has_one_reason`, `queued_is_counted`; `first_known`, `know_cycle`; `count_row`; `Slots`: `new`,
//! `fill`, `lose`, `add`, `as_slice`; `slot_name_at`.
#![tactic(auto)]

ghost use Rattle.slot_reasons.specs.Laws.{EachSlotHasOneReason, QueuedIsCounted, SeesTheRows};

mod keeping;
mod reasons;
mod slots;
mod walk;

pub use keeping::{KEPT_PLACES, first_known, know_cycle};
use rv_types::End;
pub use slots::{SLOTS, Slots, slot_name_at};
pub use walk::count_row;

/// Why slots of retirement stay empty in a cycle.
#[derive(Clone, Copy, Debug, PartialEq, Eq)]
pub enum Reason {
    /// What comes next comes no earlier from the front end.
    FrontEnd,
    /// It comes late since there was no room for it.
    Room,
    /// It comes late behind a branch or JALR that was wrongly predicted.
    Misprediction,
    /// It comes late behind a load that had passed a store wrongly.
    Violation,
    /// A call waits to be alone, or was.
    Call,
    /// The oldest entry executes in an arithmetic unit.
    Simple,
    /// The oldest entry executes in the multiplier.
    Multiplier,
    /// The oldest entry executes in the divider, or waits for it.
    Divider,
    /// The oldest entry is a store that executes.
    Store,
    /// The oldest entry is a load that takes no longer than a hit.
    LoadFirst,
    /// The oldest entry is a load that takes longer than a hit, and no longer than the second level.
    LoadSecond,
    /// The oldest entry is a load that takes longer.
    LoadMemory,
    /// The oldest entry is a load that waits for miss registers.
    Registers,
    /// The oldest entry is a branch or JALR that is Done and isn't resolved.
    Resolve,
    /// The oldest entry is a store that is Done and isn't cleared.
    Clear,
    /// The oldest entry is a second store of the cycle.
    StorePort,
    /// The oldest entry executes, and would be Done by now, had the defence not kept it from issuing.
    Defence,
    /// The run has ended.
    End,
}

/// What is known of a cycle once it is over.
#[derive(Clone, Copy, Debug, PartialEq, Eq)]
pub struct Past {
    /// The serial of the first entry that was renamed in it, if one was.
    pub renamed: Option<u64>,
    /// Why what was renamed in it came late.
    pub late: Reason,
    /// Why what is renamed next comes late.
    pub next: Reason,
    /// How many items are fetched and not renamed.
    pub queued: u64,
}

/// An entry that was the oldest that the defence alone kept from issuing.
#[derive(Clone, Copy, Debug, PartialEq, Eq)]
pub struct Kept {
    /// The serial of the entry that was kept.
    pub serial: u64,
    /// In how many cycles that entry was the oldest kept one.
    pub cycles: u64,
}

/// What is known before a cycle.
#[derive(Drop)]
pub struct Known {
    /// What is known of the cycle before.
    pub past: Past,
    /// Entries that the defence alone kept from issuing, each at the place that its serial has.
    pub kept: [Kept; KEPT_PLACES],
}

/// What a cycle leaves, once it is over.
#[derive(Clone, Copy, Debug, PartialEq, Eq)]
pub struct Over {
    /// The number of the cycle.
    pub number: u32,
    /// How many instructions retired in the cycle.
    pub retired: u64,
    /// How the run ended, if it did.
    pub end: Option<End>,
    /// The serial of the entry that the cycle counts for, if there is one: where a slot stays empty, the oldest that
    /// waits, isn't visible and has all that it reads, if the defence doesn't let it issue.
    pub kept: Option<u64>,
}

/// What is known of a cycle behind some of its events.
#[derive(Clone, Copy, Debug, PartialEq, Eq)]
pub struct Walked {
    /// Why what is renamed next comes late.
    pub late: Reason,
    /// The serial of the first entry that was renamed, if one was.
    pub renamed: Option<u64>,
    /// How many of the items that had been fetched before the cycle are left to be renamed.
    pub left: u64,
    /// How many items were fetched.
    pub fetched: u64,
}

/// The slots of all reasons in a run are as many as its cycles have: none is counted twice, and none is lost. The rows
/// that are seen with them are those of the run.
pub fn each_slot_has_one_reason()
    ensures slots { EachSlotHasOneReason }
    ensures rows { SeesTheRows }
{}

/// The items that are fetched and not renamed, as they are counted from the events, are as many as the machine's queue
/// has, after any number of cycles (`docs/theorems.md`, "The slots of a run").
pub fn queued_is_counted()
    ensures { QueuedIsCounted }
{}
