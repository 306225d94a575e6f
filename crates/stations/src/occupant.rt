//! An entry in its place.
ghost use Rattle.std.specs.Prelude.{◌≡◌};
ghost use Rattle.stations.specs.Places.{is_in};
ghost use Rattle.stations.specs.Stations.{strike};

use crate::wants::{Part, Wants};

/// An entry that waits, and the serials that it awaits.
#[derive(Clone, Copy, Debug, PartialEq, Eq)]
pub(crate) struct Occupant {
    /// The serial of the entry.
    pub serial: u64,
    /// What the entry, or a part of it, needs before it may issue.
    pub wants: Wants,
    /// The writer of the entry's first source, if it is awaited.
    pub first: Option<u64>,
    /// The writer of the entry's second source, if it is awaited.
    pub second: Option<u64>,
    /// How many entries had left their places as this one came, and how many were held then, modulo 2^32.
    pub came: u32,
}

// Takes the serial out, where it is the one that is awaited.
fn strike(awaited: &mut Option<u64>, serial: u64)
    ensures { awaited.new ≡ strike serial awaited.old }
{
    if *awaited == Some(serial) {
        *awaited = None;
    }
}

// Whether a source awaits a serial of this group.
fn is_in(awaited: Option<u64>, group: u64) -> bool
    ensures { result ≡ is_in group awaited }
{
    match awaited {
        Some(serial) => serial % 256 == group,
        None => false,
    }
}

impl Occupant {
    ghost use Rattle.std.specs.Prelude.{◌≡◌, is_none};
    ghost use Rattle.std.specs.List.{list_all};
    ghost use Rattle.stations.specs.Places.{nobody, awaited_serials, awaits_in, after_wakeup};
    ghost use Rattle.stations.specs.Stations.{able_as, nothing_at, source_of};

    /// An entry with the serials that it awaits.
    pub fn new(serial: u64, wants: Wants, awaits: [Option<u64>; 2], came: u32) -> Occupant
        ensures serial { result.serial ≡ serial }
        ensures wants { result.wants ≡ wants }
        ensures awaits { awaited_serials result ≡ awaits }
    {
        let [first, second] = awaits;
        Occupant {
            serial,
            wants,
            first,
            second,
            came,
        }
    }

    /// What stands in a place that no entry has had.
    pub fn nobody() -> Occupant
        ensures { result ≡ nobody }
    {
        Occupant {
            serial: 0,
            wants: Wants::Whole,
            first: None,
            second: None,
            came: 0,
        }
    }

    /// The entry awaits a serial no longer.
    pub fn wake(&mut self, serial: u64)
        ensures { self.new ≡ after_wakeup serial self.old }
    {
        strike(&mut self.first, serial);
        strike(&mut self.second, serial);
    }

    /// Whether the entry awaits nothing.
    pub fn is_ready(&self) -> bool
        ensures { result ≡ list_all is_none (awaited_serials self.now) }
    {
        self.first.is_none() && self.second.is_none()
    }

    /// Whether the source that a part needs is awaited no more, or there is none.
    pub fn is_ready_part(&self, part: Part) -> bool
        ensures { result ≡ nothing_at (source_of part) (awaited_serials self.now) }
    {
        match part {
            Part::Address => self.first.is_none(),
            Part::Data => self.second.is_none(),
        }
    }

    /// Whether the entry, or a part of it, may issue.
    pub fn is_able(&self) -> bool
        ensures { result ≡ able_as self.now.wants (awaited_serials self.now) }
    {
        match self.wants {
            Wants::Whole => self.is_ready(),
            Wants::Either => self.first.is_none() || self.second.is_none(),
            Wants::Address => self.first.is_none(),
            Wants::Data => self.second.is_none(),
        }
    }

    /// Whether the entry awaits a serial of this group.
    pub fn awaits_in(&self, group: u64) -> bool
        ensures { result ≡ awaits_in group self.now }
    {
        is_in(self.first, group) || is_in(self.second, group)
    }
}
