//! What a load finds in the stores before it and in memory (`docs/machine.md`, "Loads"): one walk over the stores.
ghost use Rattle.std.specs.Prelude.{◌≡◌, ◌≤◌, ◌<◌, ◌+◌, ◌-◌, ◌*◌, ◌^◌, None, nat_lt, if◌then◌else◌, length, slice_index};
ghost use Rattle.std.specs.Prelude.{false};
ghost use Rattle.rename_taint.specs.Writes.{later};
ghost use Rattle.lsq.specs.declared.merging.Gathered.{Gathered};
ghost use Rattle.rv_types.specs.Memory.{load_fault};
ghost use Rattle.rv_types.specs.Value.{bytes_in};
ghost use Rattle.rv_types.specs.Word.{from_le, to_le};
ghost use Rattle.lsq.specs.Queues.{older, youngest_root};
ghost use Rattle.lsq.specs.Merging.{all_forwarded, byte_by, byte_or_memory, giver, merged_bytes, reaches, reaches_by};
ghost use Rattle.lsq.specs.Gathering.{covered_in, bytes_from_stores, is_near, nothing, number_in, with_younger_store};

use crate::load::LoadRequest;
use crate::store::{Span, Store};
use byte_ram::Ram;
use rename_taint::later;
use rv_types::Width;

/// What a load finds in older stores and in memory.
#[derive(Clone, Copy, Debug, PartialEq, Eq)]
pub struct Merged {
    /// The number of the load's bytes, the lowest first.
    pub value: u32,
    /// Whether older stores give all bytes of the load.
    pub covered: bool,
    /// The serial of the youngest load from which an older store's address flows, if there is one.
    pub root: Option<u64>,
}

/// What stores give to a load: the bytes of the youngest stores that write them, as far as there are such, at its
/// address and at the three behind; and the youngest root of the stores' addresses.
#[derive(Clone, Copy, Debug, PartialEq, Eq)]
pub(crate) struct Gathered {
    pub(crate) first: Option<u8>,
    pub(crate) second: Option<u8>,
    pub(crate) third: Option<u8>,
    pub(crate) fourth: Option<u8>,
    pub(crate) root: Option<u64>,
}

// Whether what a store writes reaches an address. A store with a fault reaches none.
pub(crate) fn reaches(span: &Span, addr: u64) -> bool
    ensures { result ≡ reaches addr span.now }
{
    span.fault.is_none()
        && span.addr as u64 <= addr
        && addr < span.addr as u64 + span.width.bytes() as u64
}

// Whether what a store writes may reach one of the four bytes from an address on: most stores are passed by this test.
#[inline(always)]
pub(crate) fn is_near(span: &Span, addr: u64) -> bool
    requires { addr < 2 ^ 32 }
    ensures { result ≡ is_near addr span.now }
{
    (span.addr as u64) < addr + 4 && addr < span.addr as u64 + 4
}

// A byte of a number of this width, the lowest first, and 0 past its last.
fn byte_in(width: Width, number: u32, place: u64) -> u8
    ensures { result ≡ slice_index (to_le (bytes_in width) number) place }
{
    match (width, place) {
        (_, 0) => (number % 256) as u8,
        (Width::H | Width::W, 1) => (number / 256 % 256) as u8,
        // Divided byte by byte, as the definition takes a number apart.
        (Width::W, 2) => (number / 256 / 256 % 256) as u8,
        (Width::W, 3) => (number / 256 / 256 / 256 % 256) as u8,
        _ => 0,
    }
}

// The byte that a store writes at an address, if both its parts are known and it reaches it.
fn byte_by(store: &Store, addr: u64) -> Option<u8>
    ensures { result ≡ byte_by addr store.now }
{
    match (&store.span, store.stored) {
        (Some(span), Some(stored)) if reaches(span, addr) => Some(byte_in(
            span.width,
            stored,
            addr.saturating_sub(span.addr as u64),
        )),
        _ => None,
    }
}

// Whether a store may write one of the four bytes from an address on.
#[tactic(auto, using(crate::proofs::Far::far_span))]
fn may_give(store: &Store, addr: u64) -> bool
    requires { addr < 2 ^ 32 }
    ensures { (g : Gathered) → result ≡ false
        → with_younger_store addr store.now g ≡ record g { root = later store.now.root g.root } }
{
    match &store.span {
        Some(span) => is_near(span, addr),
        None => false,
    }
}

impl Gathered {
    // What is gathered for a load where there is no store.
    fn nothing() -> Gathered
        ensures { result ≡ nothing }
    {
        Gathered {
            first: None,
            second: None,
            third: None,
            fourth: None,
            root: None,
        }
    }

    // What is gathered for the bytes from an address on, once this younger store is passed.
    fn passed(self, store: &Store, addr: u64) -> Gathered
        requires { addr < 2 ^ 32 }
        ensures { result ≡ with_younger_store addr store.now self }
    {
        let second = addr + 1;
        let third = second + 1;
        let fourth = third + 1;
        Gathered {
            first: byte_by(store, addr).or(self.first),
            second: byte_by(store, second).or(self.second),
            third: byte_by(store, third).or(self.third),
            fourth: byte_by(store, fourth).or(self.fourth),
            root: later(store.root, self.root),
        }
    }

    // What is gathered for the bytes from an address on, once this younger store is passed. One that reaches none of
    // them only gives its root.
    fn passed_by_range(self, store: &Store, addr: u64) -> Gathered
        requires { addr < 2 ^ 32 }
        ensures { result ≡ with_younger_store addr store.now self }
    {
        if may_give(store, addr) {
            return self.passed(store, addr);
        }
        let root = later(store.root, self.root);
        Gathered { root, ..self }
    }

    // What is gathered for the bytes from an address on, once this store is passed, if it is older than the load.
    fn passed_if_older(self, store: &Store, serial: u64, addr: u64) -> Gathered
        requires { addr < 2 ^ 32 }
        ensures { result ≡ (if nat_lt store.now.serial serial then with_younger_store addr store.now self else self) }
    {
        if store.serial < serial {
            return self.passed_by_range(store, addr);
        }
        self
    }

    // The number of the bytes from an address on: those that were gathered, else memory's.
    fn number(&self, addr: u64, width: Width, ram: &Ram) -> u32
        requires address { load_fault ram.now addr (bytes_in width) ≡ None }
        requires low { addr < 2 ^ 32 }
        ensures value { result ≡ number_in ram.now addr width self.now }
        ensures small { result < 2 ^ (8 * bytes_in width) }
    {
        let first = byte_or_memory(self.first, ram, addr) as u32;
        match width {
            Width::B => first,
            Width::H => first + 256 * byte_or_memory(self.second, ram, addr + 1) as u32,
            Width::W => {
                let second = byte_or_memory(self.second, ram, addr + 1) as u32;
                // Counted on by ones, as the definition's list of addresses is.
                let third = byte_or_memory(self.third, ram, addr + 1 + 1) as u32;
                let fourth = byte_or_memory(self.fourth, ram, addr + 1 + 1 + 1) as u32;
                first + 256 * (second + 256 * (third + 256 * fourth))
            }
        }
    }

    // Whether all bytes of a width were gathered.
    fn is_covered(&self, width: Width) -> bool
        ensures { result ≡ covered_in width self.now }
    {
        let halves = self.first.is_some() && self.second.is_some();
        match width {
            Width::B => self.first.is_some(),
            Width::H => halves,
            Width::W => halves && self.third.is_some() && self.fourth.is_some(),
        }
    }
}

// The byte that was gathered for an address, else the one that memory holds there.
fn byte_or_memory(byte: Option<u8>, ram: &Ram, addr: u64) -> u8
    requires low { ram.now.base ≤ addr }
    requires high { addr < ram.now.base + length ram.now.bytes }
    ensures { result ≡ byte_or_memory ram.now addr byte }
{
    match byte {
        Some(byte) => byte,
        None => ram.bytes()[(addr - ram.base() as u64) as usize],
    }
}

// What the stores older than a serial give to a load of the bytes from an address on.
fn gather(stores: &[Store], serial: u64, addr: u64) -> Gathered
    requires { addr < 2 ^ 32 }
    ensures { result ≡ bytes_from_stores (older serial stores.now) addr }
{
    let mut gathered = Gathered::nothing();
    for store in stores {
        gathered = gathered.passed_if_older(store, serial, addr);
    }
    gathered
}

// What a load with a serial finds in these stores and in memory. The access has no fault.
#[tactic(auto, using(crate::proofs::Gathers::number_is, crate::proofs::Gathers::covered_is))]
pub(crate) fn merge(stores: &[Store], serial: u64, request: &LoadRequest, ram: &Ram) -> Merged
    requires address { load_fault ram.now request.now.addr (bytes_in request.now.width) ≡ None }
    ensures value { result.value
        ≡ from_le (merged_bytes ram.now (older serial stores.now) request.now.addr (bytes_in request.now.width)) }
    ensures small { result.value < 2 ^ (8 * bytes_in request.now.width) }
    ensures covered { result.covered
        ≡ all_forwarded (older serial stores.now) request.now.addr (bytes_in request.now.width) }
    ensures root { result.root ≡ youngest_root (older serial stores.now) }
{
    let gathered = gather(stores, serial, request.addr as u64);
    Merged {
        value: gathered.number(request.addr as u64, request.width, ram),
        covered: gathered.is_covered(request.width),
        root: gathered.root,
    }
}

// Whether what a store writes reaches an address, where it is known by a cycle where it writes.
fn reaches_by(store: &Store, addr: u64, cycle: u64) -> bool
    ensures { result ≡ reaches_by cycle addr store.now.span }
{
    match &store.span {
        Some(span) => reaches(span, addr) && span.known_from <= cycle,
        None => false,
    }
}

// The serial of the youngest store older than a serial that writes the byte at an address, of those of which it is
// known by a cycle where they write.
pub(crate) fn giver(stores: &[Store], serial: u64, addr: u64, cycle: u64) -> Option<u64>
    ensures { result ≡ giver cycle (older serial stores.now) addr }
{
    let mut giver = None;
    for store in stores {
        if store.serial < serial && reaches_by(store, addr, cycle) {
            giver = Some(store.serial);
        }
    }
    giver
}
