//! A load in flight, as the queue of loads holds it.
use crate::serials::Queued;
use rv_types::{Cause, Width};

/// What a load asks for.
#[derive(Clone, Copy, Debug, PartialEq, Eq)]
pub struct LoadRequest {
    /// The address of the load's first byte.
    pub addr: u32,
    /// How many bytes the load reads.
    pub width: Width,
    /// Why the load traps once it is the oldest, if it does: it then asks for no byte.
    pub fault: Option<Cause>,
}

/// What a load reads, and when it issued.
#[derive(Clone, Copy, Debug, PartialEq, Eq)]
pub struct IssuedLoad {
    /// The address of the load's first byte.
    pub addr: u32,
    /// How many bytes the load reads.
    pub width: Width,
    /// Why the load traps once it is the oldest, if it does: it then reads nothing.
    pub fault: Option<Cause>,
    /// The cycle in which the load issued.
    pub cycle: u64,
}

/// A load in flight, as the queue of loads holds it.
#[derive(Clone, Copy, Debug, PartialEq, Eq)]
pub struct Load {
    /// The load's number in the order of renaming.
    pub serial: u64,
    /// What the load reads, once that is noted as it issues.
    pub access: Option<IssuedLoad>,
}

impl IssuedLoad {
    ghost use Rattle.std.specs.Prelude.{◌≡◌};
    ghost use Rattle.lsq.specs.Clearing.{request_of};

    /// What the load asked for.
    pub(crate) fn request(&self) -> LoadRequest
        ensures { result ≡ request_of self.now }
    {
        LoadRequest {
            addr: self.addr,
            width: self.width,
            fault: self.fault,
        }
    }
}

impl Queued for Load {
    ghost serial = { λ l. l.serial };

    fn serial(&self) -> u64 {
        self.serial
    }
}
