//! Laws: what every state of the machine keeps, from its opening on.
//!
//! Each phase keeps the facts, and so does every run.
//!
//! Rules: `specs/Sized.antt`, `Timely.antt`, `Known.antt`, `InTurn.antt`; `docs/theorems.md`, "What every state keeps".
//!
//! Promises: `docs/theorems.md`, "What every state keeps".
//!
//! Clauses: `states_keep`, `issued_is_known`, `lines_go_in_turn`.
#![tactic(auto)]

ghost use Rattle.machine_facts.specs.Laws.{
  CycleKeepsShape,
  NoStoreIsBusy,
  OneDivisionIsLongest,
  RetireKeepsShape,
  RowsAreShort,
  StatesAreCounted,
  StatesFitCheckpoints,
  StatesAreSized,
  StatesAreTimely,
  StatesKeepShape,
};
ghost use Rattle.machine_facts.specs.Known.{IssuedIsKnown};
ghost use Rattle.machine_facts.specs.InTurn.{AccessesGoInTurn, AccessesLeaveInTurn, OthersStay};

/// Every state of a run has the sizes of its description, also of history and stack, all that is under way in it ends
/// soon, and serials and the count of the retired are at most four times its cycle. Between two cycles and the next
/// Issue no store stays busy. No cycle has more than 232 events, and neither Retire nor a cycle moves memory or changes
/// its size (`docs/theorems.md`, "What every state keeps").
pub fn states_keep()
    ensures sized { StatesAreSized }
    ensures timely { StatesAreTimely }
    ensures division { OneDivisionIsLongest }
    ensures checkpoints { StatesFitCheckpoints }
    ensures no_busy_store { NoStoreIsBusy }
    ensures counted { StatesAreCounted }
    ensures events { RowsAreShort }
    ensures retire_memory { RetireKeepsShape }
    ensures cycle_memory { CycleKeepsShape }
    ensures memory { StatesKeepShape }
{}

/// What has issued of a store's address or data is known in every phase that asks for it: in each cycle of a run, as
/// Resolve, Clear, Retire and Issue begin, its due is at most the cycle.
pub fn issued_is_known()
    ensures { IssuedIsKnown }
{}

/// The order of a load's lines can't be seen: looking a line up isn't changed by what another line's access leaves. So
/// what a load's lines come to, all looked up at once, is what they come to one after the other, the lower first, each
/// on what the one before left, and then what is prefetched; and that is what an access leaves.
pub fn lines_go_in_turn()
    ensures others { OthersStay }
    ensures found { AccessesGoInTurn }
    ensures left { AccessesLeaveInTurn }
{}
