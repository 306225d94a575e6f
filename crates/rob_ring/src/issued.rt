//! What Issue changes of an entry.
use window_model::{Outcome, Progress};

/// What an entry is once it, or a part of it, has issued: all of it that Issue changes, so that this alone is carried
/// to its place.
#[derive(Clone, Copy, Debug, PartialEq, Eq)]
pub struct Issued {
    /// How far the entry is.
    pub state: Progress,
    /// What the entry comes to, once it has issued.
    pub outcome: Option<Outcome>,
    /// The cycle in which it issued, where it did in one piece.
    pub issued: Option<u64>,
    /// The cycle from which on a store's address is known.
    pub addr_due: Option<u64>,
    /// The cycle from which on a store's data is known.
    pub data_due: Option<u64>,
}
