//! The visibility point: one serial that tells which entries in flight are visible, and which under `off` is the last
//! that there is.
//!
//! An entry is visible once none of the older ones keeps it from that (`docs/machine.md`, "Safe and visible"). Entries
//! come in order, so one serial tells it of all: that of the oldest entry that still keeps younger ones from being
//! visible. The point moves with the window, never back. The reorder buffer tells where it stops, so no entries are
//! walked over, and a test of it takes constant time.
//!
//! Rules: `specs/Point.antt`, what the point may be and what it then is, over `window_model/specs/Taint.antt`;
//! `specs/Gate.antt` and `Pick.antt`, what taint and the defence `delay` keep from issuing and from being resolved, by
//! the point and the youngest roots of an entry's sources.
//!
//! Promises: under a model that protects the point is at an entry's serial or above it exactly where the definitions
//! call the entry visible; serials below the window's are visible, and one above it only where an entry behind the
//! window would be; it moves on only. Under `off` every serial is visible. An entry may show its operands unless the
//! defence delays it and the point hasn't reached it.
//!
//! Clauses: `VisPoint::new`, `visible`, `may_show`, `tainted`, `hidden_from`, `advance`.
#![tactic(auto)]

mod point;

pub use point::VisPoint;
