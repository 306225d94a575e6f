//! Global history and the return stack: the directions of the last branches, and where the last calls return to.
//!
//! The history has a part in where a branch's counter stands; the youngest address on the stack is where a return is
//! predicted to go. Both follow what is fetched, and go back to an item's checkpoint where what is younger is dropped.
//!
//! Rules: `window_model/specs/History.antt`; `specs/Past.antt`, what the part holds; `docs/machine.md`, "History and
//! return stack".
//!
//! Promises: history and stack are the machine's: a direction enters the history, a call pushes and a return pops as
//! the definitions say; a branch's counter is the one that its address and a checkpoint's history give; its sizes are
//! those of some description.
//!
//! Clauses: `History::new`, `described`, `index`, `shift`, `push`, `pop`, `checkpoint`, `restore`, `returns_to`,
//! `follow`.
#![tactic(auto)]

mod history;
mod jump;
mod stack;

pub use history::History;
