//! Laws on the ports, on a function that does nothing.
ghost use Rattle.unit_ports.specs.Laws.{GrantsAsCounted, LeavesAsCounted, OpensWithAll, StoresAskAtBoth};

/// A cycle's ports, asked for by one entry after the other, oldest first: what is left is what the older entries that
/// may issue have left, and an entry, or a part of a store, is granted exactly where the machine's definition grants it
/// (`docs/machine.md`, "Issue").
pub fn grants_as_issue_counts()
    ensures opens { OpensWithAll }
    ensures leaves { LeavesAsCounted }
    ensures stores { StoresAskAtBoth }
    ensures grants { GrantsAsCounted }
{}
