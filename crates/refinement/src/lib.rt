//! Laws: what an entry leaves in the parts of a core (its footprint), when the parts refine the window of entries in
//! flight, that each step of a cycle keeps that, and what they then tell of the window.
//!
//! What holds results back under the defence `hold` is a part of it.
//!
//! Rules: `specs/Footprint.antt`, what an entry leaves with the older ones; `InFlight.antt` and `Refines.antt`, the
//! relation: each part holds one column of the footprints; `Steps.antt`; `Telling.antt`; `Waiters.antt`,
//! `Stations.antt`, `Roots.antt`, `Writers.antt`, `Points.antt`, what a footprint is made of; `Noted.antt`, what the
//! queues note of an entry; `docs/architecture.md`, "How the parts refine the window".
//!
//! Promises: parts that refine a window tell of it what the definitions find: writers, readiness, taint, visibility,
//! and of each store whether its address is tainted; each step of a cycle keeps that they refine it.
//!
//! Clauses: `parts_tell_of_window`, `steps_keep_refinement`.
#![tactic(auto)]

ghost use Rattle.refinement.specs.Steps.{
  ClearsAt,
  CompletesAt,
  DropsFrom,
  IssuesAt,
  OpensEmpty,
  PointMoves,
  PointStops,
  RenamesIn,
  ResolvesAt,
  RetiresHead,
};

/// Parts go on to refine the window as it changes: as entries are renamed into it, issue, in parts or whole, become
/// Done, are resolved, are cleared, are dropped, and retire, and as the visibility point moves (`docs/machine.md`, "A
/// cycle").
pub fn steps_keep_refinement()
    ensures opens { OpensEmpty }
    ensures rename { RenamesIn }
    ensures issue { IssuesAt }
    ensures complete { CompletesAt }
    ensures resolve { ResolvesAt }
    ensures clear { ClearsAt }
    ensures drop { DropsFrom }
    ensures retire { RetiresHead }
    ensures point { PointMoves }
    ensures stops { PointStops }
{}

ghost use Rattle.refinement.specs.Telling.{
  CountsRoom,
  CountsStations,
  FindsAwaited,
  FindsWriter,
  HasStation,
  HoldsOlderOnes,
  HoldsWaiters,
  NamesEntry,
  NamesRoot,
  NamesWriter,
  QueuesStand,
  QueuesTrack,
  StationsOlder,
  StationsYounger,
  TellsAble,
  TellsEachStore,
  TellsGiven,
  TellsOperands,
  TellsPart,
  TellsReady,
  TellsTaint,
  TellsVisible,
  TellsWriters,
};

/// What parts that refine the window tell of it: for what there is room, who writes a register, which writers an
/// entry's sources have (`docs/machine.md`, "Writers and roots"), what it awaits, and which loads and stores there are;
/// and, where the point has just moved, which entries give their values, whether an entry is ready, and a part of a
/// store, what is tainted, and which older stores have tainted addresses ("Loads"). Who may issue, be resolved or be
/// cleared is said from this in `issue`, `resolve` and `clear`.
pub fn parts_tell_of_window()
    ensures room { CountsRoom }
    ensures older { HoldsOlderOnes }
    ensures writer { NamesWriter }
    ensures entry { NamesEntry }
    ensures found { FindsWriter }
    ensures awaits { FindsAwaited }
    ensures writers { TellsWriters }
    ensures waiting { HoldsWaiters }
    ensures station { HasStation }
    ensures count { CountsStations }
    ensures older_stations { StationsOlder }
    ensures younger_stations { StationsYounger }
    ensures gives { TellsGiven }
    ensures ready { TellsReady }
    ensures able { TellsAble }
    ensures part { TellsPart }
    ensures visible { TellsVisible }
    ensures root { NamesRoot }
    ensures taint { TellsTaint }
    ensures operands { TellsOperands }
    ensures queues { QueuesStand }
    ensures tracks { QueuesTrack }
    ensures stores { TellsEachStore }
{}
