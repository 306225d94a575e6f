//! The row of a cycle: its number, and its events in their order.
ghost use Rattle.std.specs.Prelude.{◌≡◌, ◌<◌, ◌≤◌, ◌∷◌, [], length};

use crate::Event;
use std::marker::Model;

/// The most events of one cycle.
pub const ROW_MAX: usize = 256;

/// What happened in a cycle, at most 256 events. It takes no memory. The events are the first of as many places as a
/// row has room for; what stands in the places behind them means nothing.
#[derive(Drop)]
pub struct Row {
    cycle: u32,
    places: [Event; ROW_MAX],
    len: usize,
}

impl Model for Row {
    ghost use Rattle.std.specs.Prelude.{◌≤◌, take};
    ghost use Rattle.window_model.specs.Row.{Row};
    ghost use Rattle.window_model.specs.declared.row.TheConstants.{ROW_MAX};

    ghost Value = { Row };

    ghost view = { λ r. record { cycle = r.cycle; events = take r.len r.places } };

    ghost invariant = { λ r. r.len ≤ ROW_MAX };
}

/// A row of cycle 0, without events.
pub fn empty_row() -> Row
    ensures { result ≡ record { cycle = 0; events = [] } }
{
    Row {
        cycle: 0,
        places: [Event::default(); ROW_MAX],
        len: 0,
    }
}

impl Row {
    ghost use Rattle.window_model.specs.inner.Row.{row_room, with_events};

    /// Starts the row of a cycle: its number, and no event.
    pub fn begin(&mut self, cycle: u32)
        ensures { self.new ≡ record { cycle = cycle; events = [] } }
    {
        self.cycle = cycle;
        self.len = 0;
    }

    /// Adds an event behind the others.
    pub fn push(&mut self, event: Event)
        requires { length self.old.events < row_room }
        ensures { self.new ≡ with_events self.old (event ∷ []) }
    {
        self.places[self.len] = event;
        self.len += 1;
    }

    /// The number of the cycle whose row this is.
    pub fn cycle(&self) -> u32
        ensures { result ≡ self.now.cycle }
    {
        self.cycle
    }

    /// The events, in their order.
    pub fn events(&self) -> &[Event]
        ensures value { result.now ≡ self.now.events }
        ensures few { length result.now ≤ row_room }
    {
        &self.places[..self.len]
    }
}
