//! Runs of the written machine, in both versions, whose traces independent models wrote, evaluated.
//!
//! There is no code, and nothing stands on it. The models are written in other languages, from the machine's
//! description in words; `tools/evaluate/write` makes the runs and their facts of `tools/evaluate/runs`, whose
//! `README.md` says where they come from. Runs that were worked out by hand stand in `worked_runs`.
//!
//! Rules: `specs/Agreement.antt`, what it is to agree with a model, from the description's text and the image's bytes
//! to the trace's text; `Runs.antt`, the list of the runs.
//!
//! Promises: the written machine's trace of each of its small programs is the one that an independent model wrote.
//! There are 187 programs, 43 in version 1 and 144 in version 2. Each is under its own description, and goes from the
//! description's text and the image's bytes to the trace's text.
//!
//! Clauses: `model_is_met`.
#![tactic(auto)]

ghost use Rattle.std.specs.Prelude.{All};
ghost use Rattle.generated_runs.specs.Agreement.{Agrees};
ghost use Rattle.generated_runs.specs.Runs.{runs};

/// The written machine agrees with the independent models: of each run the description describes a machine, the image
/// loads, and the trace has the text that a model wrote, byte by byte (`docs/machine.md`, "Runs").
pub fn model_is_met()
    ensures { All Agrees runs }
{}
