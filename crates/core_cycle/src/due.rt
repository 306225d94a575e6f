//! What is due later, and from when on something may happen again (`docs/machine.md`, "Cycles in which nothing
//! happens").
ghost use Rattle.std.specs.Prelude.{◌≡◌, ◌<◌, ◌≤◌, ◌-◌, ◌^◌, ◌⊎◌, All, Any, [], None};
ghost use Rattle.quiet_cycles.specs.Still.{IsDoneIn, IsDueIn, NotDoneBefore, NotDueBefore, NothingDueBefore, SomethingDueIn};

use core_parts::Parts;
use rename_taint::RenameTaint;
use rob_ring::RobRing;
use window_model::{Miss, Progress, Row};

/// After a cycle with this row: the number of the next cycle in which something is due, before which nothing happens;
/// the last number of a cycle where nothing is. 0, of which nothing is claimed, where the row has an event or the run
/// has ended.
pub(crate) fn still_until<R: RenameTaint>(parts: &Parts<R>, row: &Row) -> u32
    ensures empty { 0 < result → row.now.events ≡ [] }
    ensures running { 0 < result → parts.now.machine.end ≡ None }
    ensures due { NothingDueBefore result parts.now.machine }
    ensures soonest { row.now.events ≡ [] → parts.now.machine.end ≡ None
        → (result ≡ 2 ^ 32 - 1) ⊎ SomethingDueIn result parts.now.machine }
{
    if parts.end.is_some() || !row.events().is_empty() {
        return 0;
    }
    next_due(parts)
}

// The first cycle after this one in which something is due: an entry becomes Done, a line comes, or the divider is free
// again. The last number of a cycle where nothing is.
fn next_due<R: RenameTaint>(parts: &Parts<R>) -> u32
    ensures due { NothingDueBefore result parts.now.machine }
    ensures soonest { (result ≡ 2 ^ 32 - 1) ⊎ SomethingDueIn result parts.now.machine }
{
    let cycle = parts.cycle as u64;
    let free = sooner(parts.ports.divider().free_from, cycle, u32::MAX as u64);
    let comes = lines_due(parts.mshrs.misses(), cycle, free);
    entries_due(&parts.rob, cycle, comes) as u32
}

// The sooner of a cycle in which something is due and the least so far; the least where it isn't due after this cycle.
fn sooner(due: u64, cycle: u64, least: u64) -> u64
    ensures due { NotDueBefore result cycle due }
    ensures sooner { result ≤ least }
    ensures either { (result ≡ least) ⊎ IsDueIn result cycle due }
{
    if cycle < due && due < least {
        due
    } else {
        least
    }
}

// The sooner of the cycle until which an entry is busy and the least so far; the least where it isn't busy, or not past
// this cycle.
fn done_sooner(state: Progress, cycle: u64, least: u64) -> u64
    ensures done { NotDoneBefore result cycle state }
    ensures sooner { result ≤ least }
    ensures either { (result ≡ least) ⊎ IsDoneIn result cycle state }
{
    match state {
        Progress::Busy(due) => sooner(due, cycle, least),
        _ => least,
    }
}

// The soonest in which a line comes.
fn lines_due(misses: &[Miss], cycle: u64, most: u64) -> u64
    ensures lines { All (λ m. NotDueBefore result cycle m.due) misses.now }
    ensures sooner { result ≤ most }
    ensures either { (result ≡ most) ⊎ Any (λ m. IsDueIn result cycle m.due) misses.now }
{
    let mut least = most;
    for miss in misses {
        least = sooner(miss.due, cycle, least);
    }
    least
}

// The soonest in which an entry becomes Done.
fn entries_due(rob: &RobRing, cycle: u64, most: u64) -> u64
    ensures entries { All (λ e. NotDoneBefore result cycle e.state) rob.now.entries }
    ensures sooner { result ≤ most }
    ensures either { (result ≡ most) ⊎ Any (λ e. IsDoneIn result cycle e.state) rob.now.entries }
{
    let mut least = most;
    let mut from = 0;
    while let Some(i) = rob.next_busy(from) {
        least = done_sooner(rob.lend(i).state, cycle, least);
        from = i + 1;
    }
    least
}
