//! Laws of noninterference: what a program doesn't load on its path leaves no mark in the machine's trace.
//!
//! The relation between two runs is one that every phase keeps.
//!
//! Rules: `specs/Alike.antt` and its neighbours, the relation; `Laws.antt`; `docs/theorems.md`, "Noninterference".
//!
//! Promises: `docs/theorems.md`, "Noninterference", phase by phase and for whole runs; the gadgets.
//!
//! Clauses: `traces_agree`, `phases_tell_nothing`, `secrets_stay_hidden`.
#![tactic(auto)]

ghost use Rattle.noninterference.specs.Gadgets.{BoundsCheckBypass, FaultShadow, FaultShadowSpectre, SpeculativeStoreBypass, TaintedBranch, TaintedDivisor, TaintedStoreAddress, TargetInjection};
ghost use Rattle.noninterference.specs.Laws.{ClearTellsNothing, CompleteTellsNothing, CycleTellsNothing, FetchTellsNothing, FillTellsNothing, IssueTellsNothing, Noninterference, RenameTellsNothing, ResolveTellsNothing, RetireTellsNothing, TogetherAgree};

/// Memories that agree on each byte that the path loads, in the steps that the trace retires and as many more as the
/// window holds, give one trace, under every model that protects.
pub fn traces_agree()
    ensures noninterference { Noninterference }
{}

/// Two runs that show the same have the same events in each phase, and show the same after it. Which outcomes are equal
/// follows at each state from the paths, which run in step; and a cycle keeps all of this.
pub fn phases_tell_nothing()
    ensures fill { FillTellsNothing }
    ensures complete { CompleteTellsNothing }
    ensures resolve { ResolveTellsNothing }
    ensures clear { ClearTellsNothing }
    ensures retire { RetireTellsNothing }
    ensures issue { IssueTellsNothing }
    ensures rename { RenameTellsNothing }
    ensures fetch { FetchTellsNothing }
    ensures outcomes { TogetherAgree }
    ensures cycle { CycleTellsNothing }
{}

/// Programs that would show a secret byte by what they do on a wrong path, or behind a load that has passed a store,
/// have one trace for all its 256 values, under every description whose model protects. Behind a load that faults this
/// is so under the futuristic model; under the spectre model the path itself loads the secret, for every description
/// and number of cycles, and the law says nothing of it.
pub fn secrets_stay_hidden()
    ensures bounds_check_bypass { BoundsCheckBypass }
    ensures tainted_store_address { TaintedStoreAddress }
    ensures tainted_branch { TaintedBranch }
    ensures tainted_divisor { TaintedDivisor }
    ensures target_injection { TargetInjection }
    ensures speculative_store_bypass { SpeculativeStoreBypass }
    ensures fault_shadow { FaultShadow }
    ensures fault_shadow_spectre { FaultShadowSpectre }
{}
