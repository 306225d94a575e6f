//! Which load is violated as a store is cleared (`docs/machine.md`, "Clear"): one walk over the loads.
ghost use Rattle.std.specs.Prelude.{◌≡◌, [], ◌∷◌};
ghost use Rattle.std.specs.Option.{option_map};
ghost use Rattle.lsq.specs.Clearing.{info_of, is_violated, is_wrong, passed_wrongly, store_of, violated_serial, violated_by};

use crate::load::{IssuedLoad, Load};
use crate::pending::shares;
use crate::store::{Span, Store};

/// What is told of a store in its place.
#[derive(Clone, Copy, Debug, PartialEq, Eq)]
pub struct StoreInfo {
    /// The store's number in the order of renaming.
    pub serial: u64,
    /// The serial of the youngest load from which the store's address flows, if there is one.
    pub root: Option<u64>,
    /// Whether it is known where the store writes.
    pub known: bool,
    /// Whether the store is cleared.
    pub cleared: bool,
}

// What is told of a store.
pub(crate) fn info_of(store: &Store) -> StoreInfo
    ensures { result ≡ info_of store.now }
{
    StoreInfo {
        serial: store.serial,
        root: store.root,
        known: store.span.is_some(),
        cleared: store.cleared,
    }
}

// Whether the access was made before it was known where the store writes, and shares a byte with that.
#[tactic(auto, using(crate::proofs::Wrong::shared_is))]
fn is_wrong(span: &Span, access: &IssuedLoad) -> bool
    ensures { result ≡ is_wrong span.now access.now }
{
    if access.cycle >= span.known_from {
        return false;
    }
    shares(span, &access.request())
}

// Whether the load passed the store wrongly, where it has issued and it is known where the store writes.
fn passed_wrongly(span: &Option<Span>, access: &Option<IssuedLoad>) -> bool
    ensures { result ≡ passed_wrongly span.now access.now }
{
    match (span, access) {
        (Some(span), Some(access)) => is_wrong(span, access),
        _ => false,
    }
}

// Whether the load is younger than the store, and passed it wrongly.
fn is_violated(store: &Store, load: &Load) -> bool
    ensures { result ≡ is_violated store.now load.now }
{
    store.serial < load.serial && passed_wrongly(&store.span, &load.access)
}

// The load's serial, if the store violates it.
fn serial_if_violated(store: &Store, load: &Load) -> Option<u64>
    ensures { result ≡ violated_serial store.now (load.now ∷ []) }
{
    if is_violated(store, load) {
        return Some(load.serial);
    }
    None
}

// The oldest load that the store violates.
fn violated(store: &Store, loads: &[Load]) -> Option<u64>
    ensures { result ≡ violated_serial store.now loads.now }
{
    let mut oldest = None;
    for load in loads {
        oldest = oldest.or(serial_if_violated(store, load));
    }
    oldest
}

// The store with this serial.
fn store_of(stores: &[Store], serial: u64) -> Option<&Store>
    ensures { option_map (λ s. s.now) result ≡ store_of serial stores.now }
{
    stores.iter().find(|store| store.serial == serial)
}

// The oldest load that the store with this serial violates.
pub(crate) fn violated_by(stores: &[Store], loads: &[Load], serial: u64) -> Option<u64>
    ensures { result ≡ violated_by serial stores.now loads.now }
{
    match store_of(stores, serial) {
        Some(store) => violated(store, loads),
        None => None,
    }
}
