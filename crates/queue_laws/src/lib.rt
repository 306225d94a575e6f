//! Laws: the two queues of `lsq` that stand for a window's loads and stores tell of it what the machine's definitions
//! find, and so do queues that track what loads read and which stores are cleared.
//!
//! The queues of parts that refine a window stand for it (`refinement`).
//!
//! Rules: `specs/Window.antt`, when queues stand for a window and what they track besides where loads may pass stores
//! of unknown address; `Laws.antt`, what they then tell.
//!
//! Promises: queues that stand for a window's loads and stores tell of it what the definitions find; where they also
//! track what loads read and which stores are cleared (`Tracks`), the load that they find violated is the one that the
//! machine finds.
//!
//! Clauses: `queues_tell_of_window`.
#![tactic(auto)]

ghost use Rattle.queue_laws.specs.Laws.{
  BytesAsLoaded,
  CoveredAsAsked,
  HiddenAsTainted,
  HoldsOlder,
  KnownAsComplete,
  LetsAsAsked,
  RoomAsCounted,
  TellsInPlace,
  Violates,
};

/// What queues that stand for a window tell of it: how many loads and stores it has (`docs/machine.md`, "Rename"); and
/// of the stores older than an entry, whether they let a load behind them go ("Issue"), the bytes that it finds,
/// whether they cover them all, and whether one has a tainted address ("Loads"). Where they track when loads issued and
/// addresses became known: which load a store violates, and what is told of the store at a place ("Clear"). Which store
/// is cleared is asked of the point too, so `clear` tells it, where the parts refine the window.
pub fn queues_tell_of_window()
    ensures room { RoomAsCounted }
    ensures older { HoldsOlder }
    ensures known { KnownAsComplete }
    ensures lets { LetsAsAsked }
    ensures bytes { BytesAsLoaded }
    ensures covered { CoveredAsAsked }
    ensures hidden { HiddenAsTainted }
    ensures violates { Violates }
    ensures place { TellsInPlace }
{}
