//! Laws of two runs that don't see all of each other's windows: what follows alike in both, whichever outcomes are
//! hidden.
//!
//! A crate of laws on two runs (`noninterference` on memories that agree, `secret_marks` on marks) shows that its own
//! relation implies what two runs see alike, and cites the lemmas.
//!
//! Rules: `specs/Seen.antt`, what two runs see alike; `Masks.antt`, what masks leave of two machines; `Laws.antt`;
//! `docs/architecture.md`, "Laws of two runs".
//!
//! Promises: what two runs see alike of their windows decides what is visible, tainted and known, and who may be
//! resolved, cleared and issue, in both alike; Complete, Clear and Resolve leave alike what is alike under masks.
//!
//! Clauses: `older_entries_are_seen_alike`, `who_goes_is_seen_alike`, `phases_leave_alike_under_masks`.
#![tactic(auto)]

ghost use Rattle.two_runs.specs.Laws.{
  AddressTaintedAlike,
  ClearLeavesAlike,
  CompleteLeavesAlike,
  FetchAlike,
  FitsAlike,
  ForwardedAlike,
  GrantedAlike,
  KnownAlike,
  LetAlike,
  MayClearAlike,
  MayIssueAlike,
  MayResolveAlike,
  OperandsTaintedAlike,
  RenameAlike,
  ResolveLeavesAlike,
  StoresDoneAlike,
  TaintedAlike,
  VisibleAlike,
};

/// Two runs that see alike of each older entry all but its outcome, whether it permits younger ones to be visible, and
/// which bytes a store with an untainted address covers, see alike what is visible and tainted, which values are known,
/// whether stores are Done, what they forward and whether they let a load go.
pub fn older_entries_are_seen_alike()
    ensures visible { VisibleAlike }
    ensures tainted { TaintedAlike }
    ensures operands { OperandsTaintedAlike }
    ensures address { AddressTaintedAlike }
    ensures known { KnownAlike }
    ensures stores_done { StoresDoneAlike }
    ensures forwarded { ForwardedAlike }
    ensures let_go { LetAlike }
{}

/// Two such runs see alike who may be resolved and who may be cleared; who may issue at a port and who is granted one,
/// where each load that asks has one address in both; and whether an item fits into the window. So Rename and Fetch do
/// the same to two machines that differ in registers, memory and outcomes alone.
pub fn who_goes_is_seen_alike()
    ensures resolve { MayResolveAlike }
    ensures clear { MayClearAlike }
    ensures issue { MayIssueAlike }
    ensures granted { GrantedAlike }
    ensures fits { FitsAlike }
    ensures rename { RenameAlike }
    ensures fetch { FetchAlike }
{}

/// Complete, Clear and Resolve have the same events in two machines that differ in registers, memory's bytes and
/// outcomes alone, and leave them alike under masks that leave the same of their outcomes: Complete under any masks;
/// Clear, where two runs see alike each entry, under masks that leave addresses and faults of loads; Resolve, where
/// they do so too, if what it looks at of the entry that it resolves is equal in both, and so is what the mask leaves
/// of it once resolved.
pub fn phases_leave_alike_under_masks()
    ensures complete { CompleteLeavesAlike }
    ensures clear { ClearLeavesAlike }
    ensures resolve { ResolveLeavesAlike }
{}
