//! Which entries the phase has issued, by their positions.
ghost use Rattle.std.specs.Prelude.{◌≡◌};
ghost use Rattle.issue.specs.Named.{positions_of};

use core_parts::{PUTS_MAX, Puts};
use std::marker::Model;

/// Positions of entries in flight, oldest first: at most as many as issue in a cycle, or of which a part does. They are
/// the first of as many places; what stands in the places behind them means nothing.
#[derive(Drop)]
pub struct Positions {
    places: [u32; PUTS_MAX],
    len: usize,
}

impl Model for Positions {
    ghost use Rattle.std.specs.Prelude.{◌≤◌, take};
    ghost use Rattle.issue.specs.Named.{Positions};
    ghost use Rattle.core_parts.specs.declared.decided.TheConstants.{PUTS_MAX};

    ghost Value = { Positions };

    ghost view = { λ p. record { items = take p.len p.places } };

    ghost invariant = { λ p. p.len ≤ PUTS_MAX };
}

impl Positions {
    ghost use Rattle.std.specs.Prelude.{◌≡◌, []};

    // No position.
    pub(crate) fn none() -> Positions
        ensures { result.items ≡ [] }
    {
        Positions {
            places: [0; PUTS_MAX],
            len: 0,
        }
    }

    /// The positions, in their order.
    pub fn as_slice(&self) -> &[u32]
        ensures value { result.now ≡ self.now.items }
    {
        &self.places[..self.len]
    }
}

/// The positions of the entries that are put in their places, oldest first.
#[inline(always)]
pub(crate) fn name_each(puts: &Puts) -> Positions
    ensures { result.items ≡ positions_of puts.now.items }
{
    let listed = puts.as_slice();
    let mut places = [0; PUTS_MAX];
    for k in 0..listed.len() {
        places[k] = listed[k].position;
    }
    Positions {
        places,
        len: listed.len(),
    }
}
