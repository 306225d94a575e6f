//! The second level of the cache: which lines it has, and in which order they were used, or none where the description
//! gives it no sets.
//!
//! It is a level as the first one is (`cache_tags`), in the description's other sizes. The bytes of lines are memory's,
//! so none are kept.
//!
//! Rules: `specs/Second.antt`, over `window_model/specs/SecondLevel.antt`; `docs/machine.md`, "State", "Fill" and
//! "Second level".
//!
//! Promises: the second level's lines are those of the machine's: a line is found, moves to the front of its set, or
//! enters it as the definitions say; none is there where it has no sets.
//!
//! Clauses: `Second::new`, `holds`, `look`, `fill`.
#![tactic(auto)]

mod second;

pub use second::Second;
