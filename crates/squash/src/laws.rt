//! Laws on squashes, on a function that does nothing.
ghost use Rattle.squash.specs.Laws.{LeavesTheOlder, DropsTheYounger};

/// Once an entry is marked as resolved, a squash from the serial after its own on leaves of the window what phase
/// Resolve leaves of it, and as many entries go as are younger (`docs/machine.md`, "Resolve").
pub fn squashes_as_resolve()
    ensures leaves { LeavesTheOlder }
    ensures drops { DropsTheYounger }
{}
