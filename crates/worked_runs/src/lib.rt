//! Runs and corner cases of the written machine that were worked out by hand, evaluated.
//!
//! There is no code, and nothing stands on it. Each run is worked out from `docs/machine.md`, whose section "Runs" says
//! which file asks what. They refuse wrong rules in the definitions of the machine: `tools/evaluate/runs/README.md` and
//! `wrong_rules.md` beside it have those that were tried. Runs whose traces independent models wrote stand in
//! `generated_runs`.
//!
//! Rules: the runs in `proofs/`; `docs/machine.md`, "Runs".
//!
//! Promises: what the written machine's definitions come to, in runs and single questions that were worked out by hand.
//!
//! Clauses: evaluated facts.
#![tactic(auto)]
