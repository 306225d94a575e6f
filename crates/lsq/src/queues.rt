//! The queue of loads and the queue of stores.
ghost use Rattle.std.specs.Prelude.{◌≡◌, ◌<◌, ◌≤◌, ◌*◌, ◌^◌, not, ◌==◌, ◌||◌, nat_le, nat_lt, [], ◌∷◌, ◌++◌, length, map, None, is_some, false, slice_get, IfOk, vec_len, vec_capacity};
ghost use Rattle.std.specs.List.{filter, find, list_all, list_any};
ghost use Rattle.std.specs.Option.{option_map};
ghost use Rattle.rv_types.specs.Memory.{load_fault};
ghost use Rattle.rv_types.specs.Value.{bytes_in};
ghost use Rattle.rv_types.specs.Word.{from_le};
ghost use Rattle.lsq.specs.Clearing.{info_of, store_of, violated_by};
ghost use Rattle.lsq.specs.Queues.{addressed_at, cleared_at, cut_at, empty, filled_at, is_known, issued_at, older, without, youngest_root};
ghost use Rattle.lsq.specs.Merging.{all_forwarded, giver, merged_bytes};
ghost use Rattle.lsq.specs.Pending.{bytes_requested, keeps, lacks_address, lacks_data_for};

use crate::clearing::{StoreInfo, info_of, violated_by};
use crate::keepers::Keeper;
use crate::load::{IssuedLoad, Load, LoadRequest};
use crate::loads::issue_load;
use crate::merging::{Merged, giver, merge};
use crate::pending::{Pending, keeper_place, lack_address, pending_in};
use crate::serials::{cut_items, find_near, pop_item, rises_with};
use crate::store::{Span, Store};
use byte_ram::Ram;
use machine_desc::Desc;
use rv_types::NoMemory;
use std::alloc::Global;
use std::marker::Model;

/// The loads and the stores in flight, each oldest first. Entries are named by their serials.
#[derive(Drop)]
pub struct Lsq {
    loads: Vec<Load>,
    stores: Vec<Store>,
    max_loads: u32,
    max_stores: u32,
    // Whether the loads are known to rise, and whether the stores are, as they do where each is the youngest as it
    // comes: then who retires is found at the head.
    loads_rise: bool,
    stores_rise: bool,
    // How many stores have retired from the queue, modulo 2^64: by it a store's place is guessed.
    retired_stores: usize,
}

impl Model for Lsq {
    ghost use Rattle.std.specs.Prelude.{◌≡◌, ◌≤◌, true, vec_capacity};
    ghost use Rattle.lsq.specs.Queues.{Queues, Rise};

    ghost Value = { Queues };

    ghost view = { λ q. record {
      loads = q.loads.items;
      stores = q.stores.items;
      max_loads = q.max_loads;
      max_stores = q.max_stores;
    } };

    ghost invariant = { λ q. (q.max_loads ≤ vec_capacity q.loads) × (q.max_stores ≤ vec_capacity q.stores)
        × (q.loads_rise ≡ true → Rise (λ l. l.serial) q.loads.items)
        × (q.stores_rise ≡ true → Rise (λ s. s.serial) q.stores.items) };
}

impl Lsq {
    /// Empty queues with the description's room. No later call takes memory. The one error is want of memory.
    pub fn new(alloc: Global, desc: &Desc) -> Result<Lsq, NoMemory>
        ensures { IfOk result (λ q. q ≡ empty desc.now) }
    {
        let loads = Vec::with_capacity(alloc, desc.core_loads as usize)?;
        let stores = Vec::with_capacity(alloc, desc.core_stores as usize)?;
        Ok(Lsq {
            loads,
            stores,
            max_loads: desc.core_loads,
            max_stores: desc.core_stores,
            loads_rise: true,
            stores_rise: true,
            retired_stores: 0,
        })
    }

    /// Whether there is room for one more load.
    pub fn has_load_room(&self) -> bool
        ensures { result ≡ nat_lt (length self.now.loads) self.now.max_loads }
    {
        self.loads.len() < self.max_loads as usize
    }

    /// Whether there is room for one more store.
    pub fn has_store_room(&self) -> bool
        ensures { result ≡ nat_lt (length self.now.stores) self.now.max_stores }
    {
        self.stores.len() < self.max_stores as usize
    }

    /// Appends a load of which nothing is known.
    pub fn add_load(&mut self, serial: u64)
        requires room { length self.old.loads < self.old.max_loads }
        ensures { self.new ≡ record self.old {
          loads = self.old.loads ++ record { serial = serial; access = None } ∷ [];
        } }
    {
        let load = Load {
            serial,
            access: None,
        };
        self.loads_rise = rises_with(self.loads_rise, self.loads.as_slice(), &load);
        push_within(&mut self.loads, load);
    }

    /// Appends a store of which nothing is known, and that isn't cleared, with the serial of the youngest load from
    /// which its address flows.
    pub fn add_store(&mut self, serial: u64, root: Option<u64>)
        requires room { length self.old.stores < self.old.max_stores }
        ensures { self.new ≡ record self.old {
          stores = self.old.stores
              ++ record { serial = serial; root = root; span = None; stored = None; cleared = false } ∷ [];
        } }
    {
        let store = Store {
            serial,
            root,
            span: None,
            stored: None,
            cleared: false,
        };
        self.stores_rise = rises_with(self.stores_rise, self.stores.as_slice(), &store);
        push_within(&mut self.stores, store);
    }

    /// Notes where the store with this serial writes, whose address part has issued: a width's bytes from an address
    /// on, or nothing where it has a fault. It is known from a cycle on.
    pub fn store_addr(&mut self, serial: u64, span: Span)
        ensures { self.new ≡ record self.old { stores = map (addressed_at serial span) self.old.stores } }
    {
        address_store(&mut self.stores, serial, span);
    }

    /// Notes the number whose lowest bytes the store with this serial writes, whose data part has issued.
    pub fn store_data(&mut self, serial: u64, stored: u32)
        ensures { self.new ≡ record self.old { stores = map (filled_at serial stored) self.old.stores } }
    {
        fill_store(&mut self.stores, serial, stored);
    }

    /// Notes what the load with this serial reads, and the cycle in which it issued: a width's bytes from an address
    /// on, or nothing where it has a fault.
    pub fn load_issued(&mut self, serial: u64, access: IssuedLoad)
        ensures { self.new ≡ record self.old { loads = map (issued_at serial access) self.old.loads } }
    {
        issue_load(&mut self.loads, serial, access);
    }

    /// What a load with this serial still waits for by what it asks for: whether of some older store it isn't known
    /// where it writes; whether of one that writes bytes of the load it isn't known what; and the youngest root of the
    /// addresses of those of which it isn't known what they write.
    #[inline(never)]
    pub fn pending(&self, serial: u64, request: &LoadRequest) -> Pending
        ensures address { result.address ≡ list_any lacks_address (older serial self.now.stores) }
        ensures overlap { result.overlap
            ≡ list_any (lacks_data_for (bytes_requested request.now)) (older serial self.now.stores) }
        ensures root { result.root
            ≡ youngest_root (filter (λ s. not (is_some s.stored)) (older serial self.now.stores)) }
    {
        pending_in(self.stores.as_slice(), serial, request)
    }

    /// Whether of some store older than this serial it isn't known where it writes.
    #[tactic(auto, using(crate::proofs::Older::any_lacks_address))]
    pub fn awaits_address(&self, serial: u64) -> bool
        ensures { result ≡ list_any lacks_address (older serial self.now.stores) }
    {
        lack_address(self.stores.as_slice(), serial)
    }

    /// The store that keeps a load with this serial, by what the load asks for: the oldest store before the load that
    /// writes bytes of it, of which it isn't known what. There is one where the load awaits data.
    pub fn keeper(&self, serial: u64, request: &LoadRequest) -> Option<Keeper>
        ensures oldest { option_map (λ k. k.serial) result ≡ option_map (λ s. s.serial)
            (find (keeps serial (bytes_requested request.now)) self.now.stores) }
        ensures awaited { is_some result
            ≡ list_any (lacks_data_for (bytes_requested request.now)) (older serial self.now.stores) }
    {
        let stores = self.stores.as_slice();
        match keeper_place(stores, serial, request) {
            Some(place) => Some(Keeper {
                serial: stores[place].serial,
                number: self.retired_stores.wrapping_add(place),
            }),
            None => None,
        }
    }

    /// Lends the store with a keeper's serial, if it is in flight: the keeper itself.
    pub fn store(&self, keeper: &Keeper) -> Option<&Store>
        ensures { option_map (λ s. s.now) result ≡ store_of keeper.now.serial self.now.stores }
    {
        let stores = self.stores.as_slice();
        let place = keeper.number.wrapping_sub(self.retired_stores);
        find_near(stores, self.stores_rise, keeper.serial, place)
    }

    /// Whether each store older than this serial has both its address and its data.
    #[tactic(auto, using(crate::proofs::Older::all_older))]
    pub fn all_older_known(&self, serial: u64) -> bool
        ensures { result ≡ list_all is_known (older serial self.now.stores) }
    {
        are_known(self.stores.as_slice(), serial)
    }

    /// What a load with this serial finds: the number of its bytes, each from the youngest older store that writes it,
    /// else from memory; whether older stores give them all; and the youngest root of the older stores' addresses. The
    /// access has no fault.
    pub fn merge(&self, serial: u64, request: &LoadRequest, ram: &Ram) -> Merged
        requires address { load_fault ram.now request.now.addr (bytes_in request.now.width) ≡ None }
        ensures value { result.value ≡ from_le
            (merged_bytes ram.now (older serial self.now.stores) request.now.addr (bytes_in request.now.width)) }
        ensures small { result.value < 2 ^ (8 * bytes_in request.now.width) }
        ensures covered { result.covered
            ≡ all_forwarded (older serial self.now.stores) request.now.addr (bytes_in request.now.width) }
        ensures root { result.root ≡ youngest_root (older serial self.now.stores) }
    {
        merge(self.stores.as_slice(), serial, request, ram)
    }

    /// The serial of the store that gives a load with a serial the byte at an address: the youngest older store that
    /// writes it, of those of which it is known by a cycle where they write. None where memory gives it.
    pub fn giver(&self, serial: u64, addr: u64, cycle: u64) -> Option<u64>
        ensures { result ≡ giver cycle (older serial self.now.stores) addr }
    {
        giver(self.stores.as_slice(), serial, addr, cycle)
    }

    /// What is told of the store at a place, the oldest at 0, if there are so many.
    pub fn store_at(&self, place: u32) -> Option<StoreInfo>
        ensures { result ≡ option_map info_of (slice_get self.now.stores place) }
    {
        match self.stores.get(place as usize) {
            Some(store) => Some(info_of(store)),
            None => None,
        }
    }

    /// Clears the store with this serial. The answer is the serial of the oldest load that is violated: it is younger,
    /// it issued before the cycle from which on it was known where the store writes, and they share a byte. Where it
    /// isn't known yet, and where the load or the store has a fault, no load is.
    pub fn clear(&mut self, serial: u64) -> Option<u64>
        ensures violated { result ≡ violated_by serial self.old.stores self.old.loads }
        ensures cleared { self.new ≡ record self.old { stores = map (cleared_at serial) self.old.stores } }
    {
        let violated = violated_by(self.stores.as_slice(), self.loads.as_slice(), serial);
        clear_store(&mut self.stores, serial);
        violated
    }

    /// Takes out each load and store from this serial on: they were dropped.
    pub fn cut(&mut self, first: u64)
        ensures { self.new ≡ cut_at first self.old }
    {
        cut_items(&mut self.loads, first);
        cut_items(&mut self.stores, first);
    }

    /// Takes out the load or store with this serial, if there is one: it retired.
    pub fn pop(&mut self, serial: u64)
        ensures { self.new ≡ without serial self.old }
    {
        pop_item(&mut self.loads, self.loads_rise, serial);
        let before = self.stores.len();
        pop_item(&mut self.stores, self.stores_rise, serial);
        let left = before.wrapping_sub(self.stores.len());
        self.retired_stores = self.retired_stores.wrapping_add(left);
    }
}

// Whether each store has a serial from this one on, or both its parts.
fn are_known(stores: &[Store], serial: u64) -> bool
    ensures { result ≡ list_all (λ s. nat_le serial s.serial || is_known s) stores.now }
{
    stores
        .iter()
        .all(|store| store.serial >= serial || store.is_known())
}

// Appends where there is room.
fn push_within<T: Drop>(items: &mut Vec<T>, item: T)
    requires { vec_len items.old < vec_capacity items.old }
    ensures items { items.new.items ≡ items.old.items ++ item ∷ [] }
    ensures capacity { vec_capacity items.old ≤ vec_capacity items.new }
{
    match items.push(item) {
        Ok(()) => (),
        Err(_) => unreachable!(),
    }
}

// Notes where the store writes, where it has this serial.
fn address_one(store: &mut Store, serial: u64, span: Span)
    ensures { store.new ≡ addressed_at serial span store.old }
{
    if store.serial == serial {
        store.span = Some(span);
    }
}

// Notes the number that the store writes, where it has this serial.
fn fill_one(store: &mut Store, serial: u64, stored: u32)
    ensures { store.new ≡ filled_at serial stored store.old }
{
    if store.serial == serial {
        store.stored = Some(stored);
    }
}

// Notes in a list of stores where one writes.
fn address_in(stores: &mut [Store], serial: u64, span: Span)
    ensures { stores.new ≡ map (addressed_at serial span) stores.old }
{
    for store in stores.iter_mut() {
        address_one(store, serial, span);
    }
}

fn address_store(stores: &mut Vec<Store>, serial: u64, span: Span)
    ensures items { stores.new.items ≡ map (addressed_at serial span) stores.old.items }
    ensures capacity { vec_capacity stores.new ≡ vec_capacity stores.old }
{
    address_in(stores.as_mut_slice(), serial, span);
}

// Notes in a list of stores the number that one writes.
fn fill_in(stores: &mut [Store], serial: u64, stored: u32)
    ensures { stores.new ≡ map (filled_at serial stored) stores.old }
{
    for store in stores.iter_mut() {
        fill_one(store, serial, stored);
    }
}

fn fill_store(stores: &mut Vec<Store>, serial: u64, stored: u32)
    ensures items { stores.new.items ≡ map (filled_at serial stored) stores.old.items }
    ensures capacity { vec_capacity stores.new ≡ vec_capacity stores.old }
{
    fill_in(stores.as_mut_slice(), serial, stored);
}

// Marks the store as cleared, where it has this serial.
fn clear_one(store: &mut Store, serial: u64)
    ensures { store.new ≡ cleared_at serial store.old }
{
    if store.serial == serial {
        store.cleared = true;
    }
}

// Marks one in a list of stores as cleared.
fn clear_in(stores: &mut [Store], serial: u64)
    ensures { stores.new ≡ map (cleared_at serial) stores.old }
{
    for store in stores.iter_mut() {
        clear_one(store, serial);
    }
}

fn clear_store(stores: &mut Vec<Store>, serial: u64)
    ensures items { stores.new.items ≡ map (cleared_at serial) stores.old.items }
    ensures capacity { vec_capacity stores.new ≡ vec_capacity stores.old }
{
    clear_in(stores.as_mut_slice(), serial);
}
