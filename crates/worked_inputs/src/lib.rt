//! What is read and how it is refused, evaluated in tables that were worked out by hand: descriptions, images,
//! generated images, and the line and the status of each refusal.
//!
//! There is no code, and nothing stands on it. The tables have a line a rule, from `docs/formats.md`; those of
//! generated images were made by a few lines of Python from that page. They refuse wrong rules in the definitions of
//! `machine_desc`, `elf_loader`, `gen_image` and `run_inputs`: `tools/evaluate/runs/README.md` has those that were
//! tried. What the written machine comes to stands in `worked_runs`.
//!
//! Rules: the tables in `proofs/`; `docs/formats.md`, "Notes", "Faults of descriptions", "Faults of images", "Generated
//! images".
//!
//! Promises: what the definitions of descriptions, images, generated images and refusals come to, line by line, as
//! worked out by hand.
//!
//! Clauses: evaluated facts.
#![tactic(auto)]
