//! The loads and stores in flight, in two queues by age: what a load finds in the stores before it, and which load a
//! store violates as it is cleared.
//!
//! A load that issues needs to know of the stores before it: what it still waits for there, and then which bytes they
//! give to it, and whether one of them has a tainted address. An [`Lsq`] keeps of each load its serial, and of each
//! store its serial and the youngest root of its address. What it holds besides of a store is known part by part, each
//! from the Issue in which the part goes: where it writes, and what. Where loads may pass stores whose address isn't
//! known, it is noted too what each load reads and when it issued; a store that is then cleared tells which load passed
//! it wrongly. `queue_laws` says what the queues stand for in the machine's window.
//!
//! Rules: `specs/Queues.antt`, what contracts see of the queues; `Pending.antt`, what a load waits for; `Merging.antt`,
//! what it finds; `Clearing.antt`, which load is violated; `Keepers.antt`, guesses which store keeps a load, on which
//! nothing rests; `docs/machine.md`, "Issue", "Loads" and "Clear".
//!
//! Promises: the loads and stores in flight, by age; of a store where it writes, from which cycle on that is known, and
//! what it writes, each once that part has issued. Of a load: whether all stores before it have both parts, whether one
//! of them lacks its address, which is the oldest that writes bytes of the load and lacks its data, and what it waits
//! for in them. A store by its serial, and whether it keeps a load so; and of 64 groups of loads which store was noted
//! last as one that keeps a load of theirs. The bytes that it gets, each from the youngest of them whose address is
//! known and that writes it, else from memory. Whether they write all of these bytes, and the youngest root of their
//! addresses. Of a byte also which store gives it, of those whose address is known by a cycle. Where loads may pass
//! stores, of a load also what it reads and in which cycle it issued. Then of a store whether it is cleared; and of a
//! store that is cleared the oldest younger load that passed it and shares a byte with it.
//!
//! Clauses: `Lsq::new`, `has_load_room`, `has_store_room`, `add_load`, `load_issued`, `add_store`, `store_addr`,
//! `store_data`, `store_at`, `store`, `clear`, `awaits_address`, `keeper`, `all_older_known`, `pending`, `merge`,
//! `giver`, `cut`, `pop`; `Store::keeps`; `Keepers::none`, `keeper`, `note`.
#![tactic(auto)]

mod clearing;
mod keepers;
mod load;
mod loads;
mod merging;
mod pending;
mod queues;
mod serials;
mod store;

pub use clearing::StoreInfo;
pub use keepers::{Keeper, Keepers, Kept};
pub use load::{IssuedLoad, Load, LoadRequest};
pub use merging::Merged;
pub use pending::Pending;
pub use queues::Lsq;
pub use store::{Span, Store};
