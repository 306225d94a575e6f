//! The stations: the entries that wait for their operands, in places that don't move, each with the writers that it
//! awaits and what it needs before it or a part of it may issue.
//!
//! They stand for the Waiting entries of the window (`docs/machine.md`, "Entries"). Whether an entry may issue is known
//! without a search: writers are kept as serials, and who may await a serial as bits of words, so that a writer that
//! gives its value wakes those alone that await it. One list has the numbers of the taken places by age, another those
//! of the free places; a word marks the positions by age whose entries may issue, so that Issue visits those alone.
//!
//! Rules: `specs/Stations.antt`, what is seen of them; `Places.antt`, how they lie in their places.
//!
//! Promises: the entries that wait, by age, what each awaits and what it needs before it or a part of it may issue; who
//! is told to wake is struck from all that await it, and nobody else is; an entry is ready exactly where nothing is
//! awaited, a part where its source isn't, and it is able exactly where what it needs is there; the next by age that is
//! able is told.
//!
//! Clauses: `Stations::new`, `insert`, `wake`, `ready`, `ready_part`, `able`, `any_able`, `leave`, `serial`, `place`,
//! `remove`, `drop_from`, `free`, `len`, `next_able`.
#![tactic(auto)]

mod by_age;
mod marks;
mod occupant;
mod places;
mod waking;
mod wants;

pub use by_age::Stations;
pub use wants::{Part, Wants};
