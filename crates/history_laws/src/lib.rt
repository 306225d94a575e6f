//! Laws: what history and return stack are in every state, which is those of fetching only what is left.
//!
//! Rules: `specs/Left.antt`; `docs/machine.md`, "History and return stack"; `docs/theorems.md`, "History and return
//! stack".
//!
//! Promises: `docs/theorems.md`, "History and return stack".
//!
//! Clauses: `history_follows_what_is_left`.
#![tactic(auto)]

ghost use Rattle.history_laws.specs.Left.{FollowWhatIsLeft};

/// In every state of a run history and stack are those of fetching only what is left: the instructions that have
/// retired, those in flight, and the fetched items, in this order, each branch whose resolution squashed with its true
/// direction, and every other with the one that was predicted as it was fetched. So what was dropped has left nothing
/// in them.
pub fn history_follows_what_is_left()
    ensures left { FollowWhatIsLeft }
{}
