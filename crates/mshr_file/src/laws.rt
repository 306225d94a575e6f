//! Laws on the registers, on a function that does nothing.
ghost use Rattle.mshr_file.specs.Laws.{ArrivesFirst, ArrivesNone, LeavesTheRest};

/// Calls of `due` in a cycle, one after the other, tell the lines that arrive in phase Fill, in its order, and leave
/// the registers that it leaves (`docs/machine.md`, "Fill").
pub fn due_one_by_one_is_fill()
    ensures first { ArrivesFirst }
    ensures rest { LeavesTheRest }
    ensures none { ArrivesNone }
{}
