//! What phase Issue decides, before any entry issues in its place.
ghost use Rattle.std.specs.Prelude.{◌≡◌, ◌≤◌, ◌<◌, ◌++◌, ◌∷◌, [], length};
ghost use Rattle.core_parts.specs.Decided.{IsNothing};
ghost use Rattle.core_parts.specs.Puts.{most_begun};

use lsq::Kept;
use rob_ring::Issued;
use std::marker::Model;
use window_model::{Access, Progress};

/// At most so many entries issue in a cycle, or a part of them: four arithmetic units, and one port of each other kind.
pub const PUTS_MAX: usize = 9;

/// An entry that issues, or of which a part does, before it does in its place.
#[derive(Clone, Copy, Debug, PartialEq, Eq)]
pub struct Put {
    /// The position of the entry, counted from the oldest one.
    pub position: u32,
    /// The position of the entry's station, as the stations are before the phase. It is freed where the entry no longer
    /// waits.
    pub station: u32,
    /// What has then issued of the entry: all that changes.
    pub issued: Issued,
}

impl Default for Put {
    /// A put to fill free places with, whose bytes are all 0, so that all places are cleared at once.
    fn default() -> Self {
        Put {
            position: 0,
            station: 0,
            issued: Issued {
                state: Progress::Waiting,
                outcome: None,
                issued: None,
                addr_due: None,
                data_due: None,
            },
        }
    }
}

/// Entries that issue, or of which a part does, at most 9, oldest first. They are the first of as many places; what
/// stands in the places behind them means nothing.
#[derive(Drop)]
pub struct Puts {
    places: [Put; PUTS_MAX],
    len: usize,
}

impl Model for Puts {
    ghost use Rattle.std.specs.Prelude.{◌≤◌, take};
    ghost use Rattle.core_parts.specs.Puts.{Puts};
    ghost use Rattle.core_parts.specs.declared.decided.TheConstants.{PUTS_MAX};

    ghost Value = { Puts };

    ghost view = { λ p. record { items = take p.len p.places } };

    ghost invariant = { λ p. p.len ≤ PUTS_MAX };
}

impl Puts {
    /// No entries.
    pub fn none() -> Puts
        ensures { result.items ≡ [] }
    {
        Puts {
            places: [Put::default(); PUTS_MAX],
            len: 0,
        }
    }

    /// Takes all entries out.
    pub fn clear(&mut self)
        ensures { self.new.items ≡ [] }
    {
        self.len = 0;
    }

    /// Adds an entry behind the others.
    pub fn push(&mut self, put: Put)
        requires { length self.old.items < most_begun }
        ensures { self.new.items ≡ self.old.items ++ put ∷ [] }
    {
        self.places[self.len] = put;
        self.len += 1;
    }

    /// The entries, in their order.
    pub fn as_slice(&self) -> &[Put]
        ensures value { result.now ≡ self.now.items }
        ensures few { length result.now ≤ most_begun }
    {
        &self.places[..self.len]
    }
}

/// What is decided of all entries before any of them issues in its place. It is kept from cycle to cycle, so that its
/// places are filled once.
#[derive(Drop)]
pub struct Decided {
    /// The entries that issue, or of which a part does, oldest first.
    pub puts: Puts,
    /// What the access of the load that was tried came to.
    pub load: Option<Access>,
    /// The last load that was found to be kept for want of a store's data, but for those that a guess told.
    pub kept: Option<Kept>,
}

impl Decided {
    /// Nothing is decided: no entry issues, no load was tried.
    pub fn nothing() -> Decided
        ensures { IsNothing result }
    {
        Decided {
            puts: Puts::none(),
            load: None,
            kept: None,
        }
    }

    /// Nothing is decided as yet, as the phase begins.
    pub fn begin(&mut self)
        ensures { IsNothing self.new }
    {
        self.puts.clear();
        self.load = None;
        self.kept = None;
    }
}
