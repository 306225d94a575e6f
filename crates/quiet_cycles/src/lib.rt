//! Laws: cycles in which nothing happens change nothing but the cycle's number, and they repeat until something is due.
//!
//! Rules: `specs/Still.antt`, what such a cycle is and what is due; `Laws.antt`; `docs/machine.md`, "Cycles in which
//! nothing happens".
//!
//! Promises: an empty cycle changes nothing but its number, and so do those after it. That goes on until an entry
//! becomes Done, a line comes or the divider becomes free.
//!
//! Clauses: `quiet_cycles_repeat`.
#![tactic(auto)]

ghost use Rattle.quiet_cycles.specs.Laws.{
  EmptyRowStands,
  PassesOver,
  StandsAfterEmptyRow,
  StandsUntilDue,
  StillGoesOn,
};

/// A cycle with an empty row, in which the run goes on, leaves the machine as it is but for the cycle's number, and so
/// do all cycles after it, up to the one in which an entry becomes Done, a line comes or the divider is free again.
/// They may be taken one by one, or passed over at once (`docs/machine.md`, "Cycles in which nothing happens").
pub fn quiet_cycles_repeat()
    ensures empty { EmptyRowStands }
    ensures until { StandsUntilDue }
    ensures after { StandsAfterEmptyRow }
    ensures onward { StillGoesOn }
    ensures passes { PassesOver }
{}
