//! The cache's tags: which lines it has, set by set, and in which order they were used; as one level of a cache of any
//! sizes.
//!
//! A line is named by its first address. The bytes of lines are memory's, so none are kept.
//!
//! Rules: `window_model/specs/Sets.antt`, of any level; `State.antt`, `Fill.antt` (`with_line`), `Retire.antt`
//! (`has_line`, `with_line_touched`), of the machine's; `docs/machine.md`, "State", "Fill", "Retire" and "Loads".
//!
//! Promises: the cache's lines are those of the machine's cache: a line is found, moves to the front of its set, or
//! enters it as the definitions say.
//!
//! Clauses: `Tags::new`, `holds`, `touch`, `fill`; of a level of any sizes `Level::new`, `holds`, `touch`, `enter`.
#![tactic(auto)]

mod level;
mod line_set;
mod tags;

pub use level::Level;
pub use tags::Tags;
