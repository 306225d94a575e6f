//! How the program ends: how what it did counts, or why nothing was done, and the status of each.
ghost use Rattle.std.specs.Prelude.{◌≡◌};
ghost use Rattle.stt_top.specs.Outcome.{ended_of, compared_of, status_of};

use pair_run::Differ;
use run_inputs::Refusal;
use rv_types::End;

/// How a command ended whose text is written whole.
#[derive(Clone, Copy, Debug, PartialEq, Eq)]
pub(crate) enum Ended {
    /// The run ended by an exit call, whatever its value.
    Exit,
    /// The run ended by a trap.
    Trap,
    /// The run didn't end within the budget.
    Budget,
    /// The two runs that are compared are the same.
    Alike,
    /// The two runs that are compared differ.
    Unlike,
}

/// How a run that ended so, or not at all, counts.
pub(crate) fn ended_of(end: Option<End>) -> Ended
    ensures { result ≡ ended_of end }
{
    match end {
        Some(End::Exit(_)) => Ended::Exit,
        Some(End::Trap(_, _)) => Ended::Trap,
        None => Ended::Budget,
    }
}

/// How two runs that differ so count.
pub(crate) fn compared_of(differ: Differ) -> Ended
    ensures { result ≡ compared_of differ }
{
    match differ {
        Differ::Same => Ended::Alike,
        Differ::Cycle(_) | Differ::End => Ended::Unlike,
    }
}

/// The status of an outcome (`docs/formats.md`, "Statuses").
pub(crate) fn status_of(outcome: &Result<Ended, Refusal>) -> u8
    ensures { result ≡ status_of outcome.now }
{
    match outcome {
        Ok(Ended::Exit | Ended::Alike) => 0,
        Ok(Ended::Trap | Ended::Unlike) => 1,
        Ok(Ended::Budget) => 3,
        Err(refusal) => run_inputs::status_of(refusal),
    }
}
