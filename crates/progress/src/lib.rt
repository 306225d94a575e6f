//! Laws of progress: within a bounded number of cycles one more instruction retires, or the run ends.
//!
//! Rules: `specs/Measure.antt`, `Laws.antt`; `docs/theorems.md`, "Progress".
//!
//! Promises: `docs/theorems.md`, "Progress".
//!
//! Clauses: `something_retires`.
#![tactic(auto)]

ghost use Rattle.progress.specs.Laws.{MeasureFalls, MeasureIsBounded, RetiresInBudget, RetiresWithinBound};

/// Where memory takes accesses at any address only if the description says so, within every `bound d` cycles one more
/// instruction retires, or the run ends: a measure that is at most the bound falls in each cycle in which neither
/// happens. So after n times `bound d` cycles at least n instructions have retired, or the run has ended
/// (`docs/theorems.md`, "Progress").
pub fn something_retires()
    ensures bounded { MeasureIsBounded }
    ensures falls { MeasureFalls }
    ensures retires { RetiresWithinBound }
    ensures budget { RetiresInBudget }
{}
