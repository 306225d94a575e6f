//! The ports of a cycle, and the divider.
//!
//! An entry begins to execute at the port of its kind, where one is left (`docs/machine.md`, "Issue"). A store issues
//! in two parts, address and data, and each has a port of its own. A [`Ports`] knows how many are left in this cycle,
//! oldest entries first, and until when which entry uses the divider.
//!
//! Rules: `specs/Ports.antt`, what each call leaves, over `window_model/specs/Ports.antt` and `Resolve.antt`;
//! `specs/Laws.antt`, that granting one entry after the other is what the machine's definition counts.
//!
//! Promises: the ports of a cycle and the divider: a port is granted exactly where one of its kind is left, which is
//! what the definition of Issue counts; a store's address part and its data part have each a port of their own.
//!
//! Clauses: `Ports::new`, `begin`, `has`, `grant`, `has_data`, `grant_data`, `divide`, `free_div`, `drop_from`;
//! `grants_as_issue_counts`.
#![tactic(auto)]

mod laws;
mod port;
mod ports;

pub use laws::grants_as_issue_counts;
pub use ports::Ports;
