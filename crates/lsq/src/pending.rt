//! What a load still waits for in the stores before it (`docs/machine.md`, "Issue"): one walk over the stores.
ghost use Rattle.std.specs.Prelude.{◌≡◌, ◌&&◌, [], nat_lt, if◌then◌else◌};
ghost use Rattle.std.specs.List.{list_any, position_from};
ghost use Rattle.lsq.specs.Queues.{older};
ghost use Rattle.lsq.specs.Merging.{reaches};
ghost use Rattle.lsq.specs.Pending.{pending_among, awaits_too, bytes_requested, keeps, lacks_address, reaches_one};

use crate::load::LoadRequest;
use crate::merging::{is_near, reaches};
use crate::store::{Span, Store};
use rename_taint::later;
use rv_types::Width;

/// What a load still waits for in the stores before it.
#[derive(Clone, Copy, Debug, PartialEq, Eq)]
pub struct Pending {
    /// Whether of some older store it isn't known where it writes.
    pub address: bool,
    /// Whether some older store writes bytes that the load asks for, and it isn't known what.
    pub overlap: bool,
    /// The serial of the youngest load from which the address flows of an older store of which it isn't known what it
    /// writes, if there is one.
    pub root: Option<u64>,
}

// Whether what a store writes reaches one of the bytes of a width from an address on.
#[inline(always)]
fn reaches_one(span: &Span, request: &LoadRequest) -> bool
    ensures { result ≡ reaches_one request.now.width request.now.addr span.now }
{
    let addr = request.addr as u64;
    if !is_near(span, addr) {
        return false;
    }
    match request.width {
        Width::B => reaches(span, addr),
        Width::H => reaches(span, addr) || reaches(span, addr + 1),
        Width::W => {
            // Counted on by ones, as the definition's list of addresses is.
            reaches(span, addr)
                || reaches(span, addr + 1)
                || reaches(span, addr + 1 + 1)
                || reaches(span, addr + 1 + 1 + 1)
        }
    }
}

// Whether what a store writes reaches a byte that a load asks for.
#[inline(always)]
#[tactic(auto, using(crate::proofs::Awaiting::one_is))]
pub(crate) fn shares(span: &Span, request: &LoadRequest) -> bool
    ensures { result ≡ list_any (λ a. reaches a span.now) (bytes_requested request.now) }
{
    match request.fault {
        Some(_) => false,
        None => reaches_one(span, request),
    }
}

impl Store {
    ghost use Rattle.std.specs.Prelude.{◌≡◌};
    ghost use Rattle.lsq.specs.Pending.{bytes_requested, keeps};

    /// Whether the store keeps a load with this serial, by what the load asks for: it is older, and it isn't known what
    /// it writes of the load's bytes.
    #[inline(always)]
    pub fn keeps(&self, serial: u64, request: &LoadRequest) -> bool
        ensures { result ≡ keeps serial (bytes_requested request.now) self.now }
    {
        if self.serial >= serial {
            return false;
        }
        if self.stored.is_some() {
            return false;
        }
        match &self.span {
            Some(span) => shares(span, request),
            None => false,
        }
    }
}

/// The place of the oldest of the stores that keep a load with this serial for want of their data.
pub(crate) fn keeper_place(stores: &[Store], serial: u64, request: &LoadRequest) -> Option<usize>
    ensures { result ≡ position_from (keeps serial (bytes_requested request.now)) 0 stores.now }
{
    stores.iter().position(|store| store.keeps(serial, request))
}

/// Whether of some store with a serial below this one it isn't known where it writes.
pub(crate) fn lack_address(stores: &[Store], serial: u64) -> bool
    ensures { result ≡ list_any (λ s. nat_lt s.serial serial && lacks_address s) stores.now }
{
    stores
        .iter()
        .any(|store| store.serial < serial && store.span.is_none())
}

impl Pending {
    // What a load waits for in no store.
    fn nothing() -> Pending
        ensures { result ≡ pending_among [] [] }
    {
        Pending {
            address: false,
            overlap: false,
            root: None,
        }
    }

    // What a load waits for, once this younger store is passed. One with both its parts is passed at once.
    fn passed(self, store: &Store, request: &LoadRequest) -> Pending
        ensures { result ≡ awaits_too (bytes_requested request.now) store.now self }
    {
        let address = store.span.is_none() || self.address;
        if store.stored.is_some() {
            return Pending { address, ..self };
        }
        let root = later(store.root, self.root);
        let overlap = match &store.span {
            Some(span) => shares(span, request) || self.overlap,
            None => self.overlap,
        };
        Pending {
            address,
            overlap,
            root,
        }
    }

    // What a load waits for, once this store is passed, if it is older than the load.
    fn passed_if_older(self, store: &Store, serial: u64, request: &LoadRequest) -> Pending
        ensures { result ≡ (if nat_lt store.now.serial serial
            then awaits_too (bytes_requested request.now) store.now self else self) }
    {
        if store.serial < serial {
            return self.passed(store, request);
        }
        self
    }
}

// What a load with a serial waits for in these stores.
#[tactic(auto, using(crate::proofs::Awaiting::one_more))]
pub(crate) fn pending_in(stores: &[Store], serial: u64, request: &LoadRequest) -> Pending
    ensures { result ≡ pending_among (bytes_requested request.now) (older serial stores.now) }
{
    let mut pending = Pending::nothing();
    for store in stores {
        pending = pending.passed_if_older(store, serial, request);
    }
    pending
}
