//! The writes as a slot for each register, and a list to undo them by.
//!
//! A slot has the register's youngest writer and the youngest root of its value, so a look-up takes constant time, and
//! copies what it finds with no test. Each write that is held stands in a list with what its slot held before. A squash
//! goes back over the list from its youngest end and restores the slots; a retirement takes the oldest off, and clears
//! its slot where it was the last write. So what a list entry restores may name a writer that has retired since: that
//! is one older than the oldest write that is held, and counts as none.
ghost use Rattle.std.specs.Prelude.{◌≡◌, ◌-◌, ◌<◌, ◌∷◌, ◌++◌, [], ◌==◌, length, nat_le, nat_lt, reverse, take, drop, slice_index_or, slice_set};
ghost use Rattle.std.specs.List.{filter, list_any, All};
ghost use Rattle.circular_buffer.specs.Buffer.{buffer};
ghost use Rattle.rename_taint.specs.Writes.{before_serial, without_retired};
ghost use Rattle.rename_taint.specs.Table.{Table, EachIsLinked, writes_of, empty, names, slot_after_retirement, slot_unless_retired, oldest_of, is_first, is_last};

use crate::slots::{EMPTY, Slot, Undo};
use crate::{RenameTaint, Source, Write};
use circular_buffer::HeapCircularBuffer;
use machine_desc::Desc;
use rv_types::{NoMemory, REGISTERS, Reg};
use std::alloc::Global;

/// The youngest writer and root of each register, and a list of the writes to undo them by.
#[derive(Drop)]
pub struct ByTable {
    slots: [Slot; REGISTERS],
    undo: HeapCircularBuffer<Undo>,
    ghost table: { Table slots undo.items },
}

impl RenameTaint for ByTable {
    ghost writes = { λ s. writes_of s.undo.items };

    ghost room = { λ s. s.undo.capacity };

    fn new(alloc: Global, desc: &Desc) -> Result<Self, NoMemory> {
        match HeapCircularBuffer::with_capacity(alloc, desc.core_rob as usize) {
            Ok(undo) => Ok(ByTable {
                slots: [EMPTY; REGISTERS],
                undo,
            }),
            Err(_) => Err(NoMemory),
        }
    }

    fn source(&self, register: Reg) -> Source {
        self.slots[register.number as usize].source
    }

    fn root(&self, register: Reg) -> Option<u64> {
        self.slots[register.number as usize].root
    }

    fn write(&mut self, register: Reg, serial: u64, root: Option<u64>) {
        let write = Write {
            serial,
            register: register.number,
            root,
        };
        append(&mut self.slots, &mut self.undo, write);
    }

    fn retired(&mut self, serial: u64) {
        if is_front(&self.undo, serial) {
            pop_oldest(&mut self.slots, &mut self.undo);
            return;
        }
        if is_front_up_to(&self.undo, serial) {
            retire_held(&mut self.slots, &mut self.undo, serial);
        }
    }

    fn cut_back(&mut self, first: u64) {
        undo_from(&mut self.slots, &mut self.undo, first);
    }
}

// Adds a write, younger than all, to its slot and to the undo list.
fn append(slots: &mut [Slot], undo: &mut HeapCircularBuffer<Undo>, write: Write)
    requires table { Table slots.old undo.old.items }
    requires register { write.register < 32 }
    requires room { length undo.old.items < undo.old.capacity }
    requires youngest { All (λ w. w.serial < write.serial) (writes_of undo.old.items) }
    ensures table { Table slots.new undo.new.items }
    ensures written { writes_of undo.new.items ≡ writes_of undo.old.items ++ write ∷ [] }
    ensures same_room { undo.new.capacity ≡ undo.old.capacity }
{
    let previous = slots[write.register as usize];
    slots[write.register as usize] = Slot {
        source: Source::Entry(write.serial),
        root: write.root,
    };
    push_within(undo, Undo { write, previous });
}

// Adds to the list, which has room.
fn push_within(undo: &mut HeapCircularBuffer<Undo>, entry: Undo)
    requires { length undo.old.items < undo.old.capacity }
    ensures { undo.new ≡ buffer (undo.old.items ++ entry ∷ []) undo.old.capacity }
{
    let _ = undo.try_push_back(entry);
}

// Whether a write with this serial is held. Serials rise along the list, so the search ends at the first that isn't
// smaller: that of a head that retires is the first.
fn is_held(undo: &HeapCircularBuffer<Undo>, serial: u64) -> bool
    requires { EachIsLinked (reverse undo.now.items) }
    ensures { result ≡ list_any (λ w. w.serial == serial) (writes_of undo.now.items) }
{
    for i in 0..undo.len() {
        let held = *undo.get(i).unwrap();
        if held.write.serial >= serial {
            return held.write.serial == serial;
        }
    }
    false
}

// What a slot's content says, where these writes are held: nothing of a writer that has retired.
fn still_held(undo: &HeapCircularBuffer<Undo>, slot: Slot) -> Slot
    ensures { result ≡ slot_unless_retired (oldest_of undo.now.items) slot }
{
    let Some(oldest) = undo.front().copied() else {
        return EMPTY;
    };
    match slot.source {
        Source::Entry(serial) if oldest.write.serial <= serial => slot,
        _ => EMPTY,
    }
}

// What the slot held before a write, where these older writes are held.
fn restored(undo: &HeapCircularBuffer<Undo>, youngest: &Undo) -> Slot
    ensures { result ≡ slot_unless_retired (oldest_of undo.now.items) youngest.now.previous }
{
    still_held(undo, youngest.previous)
}

// Whether the value stands with this entry.
fn names(source: Source, serial: u64) -> bool
    ensures { result ≡ names serial source }
{
    match source {
        Source::Entry(writer) => writer == serial,
        Source::Committed => false,
    }
}

// Clears the register's slot, where it names this entry.
fn forget(slots: &mut [Slot], register: u8, serial: u64)
    requires { register < length slots.old }
    ensures { slots.new ≡ slice_set slots.old register
        (slot_after_retirement serial (slice_index_or slots.old register empty)) }
{
    if names(slots[register as usize].source, serial) {
        slots[register as usize] = EMPTY;
    }
}

// Lets go of the oldest write.
fn pop_oldest(slots: &mut [Slot], undo: &mut HeapCircularBuffer<Undo>)
    requires table { Table slots.old undo.old.items }
    ensures table { Table slots.new undo.new.items }
    ensures left { undo.new ≡ buffer (drop 1 undo.old.items) undo.old.capacity }
{
    if let Some(oldest) = undo.pop_front() {
        forget(slots, oldest.write.register, oldest.write.serial);
    }
}

// Undoes the youngest write, if there is one.
fn pop_youngest(slots: &mut [Slot], undo: &mut HeapCircularBuffer<Undo>)
    requires table { Table slots.old undo.old.items }
    ensures table { Table slots.new undo.new.items }
    ensures left { undo.new ≡ buffer (take (length undo.old.items - 1) undo.old.items) undo.old.capacity }
{
    if let Some(youngest) = undo.pop_back() {
        slots[youngest.write.register as usize] = restored(undo, &youngest);
    }
}

// Whether the oldest write has this serial: that of a head that retires and wrote a register.
fn is_front(undo: &HeapCircularBuffer<Undo>, serial: u64) -> bool
    ensures { result ≡ is_first (λ u. u.write.serial == serial) undo.now.items }
{
    match undo.front().copied() {
        Some(oldest) => oldest.write.serial == serial,
        None => false,
    }
}

// Whether the oldest write has a serial up to this one.
fn is_front_up_to(undo: &HeapCircularBuffer<Undo>, serial: u64) -> bool
    ensures { result ≡ is_first (λ u. nat_le u.write.serial serial) undo.now.items }
{
    match undo.front().copied() {
        Some(oldest) => oldest.write.serial <= serial,
        None => false,
    }
}

// Whether the youngest write has a serial from this one on.
fn is_back_from(undo: &HeapCircularBuffer<Undo>, first: u64) -> bool
    ensures { result ≡ is_last (λ u. nat_le first u.write.serial) undo.now.items }
{
    match undo.back().copied() {
        Some(youngest) => first <= youngest.write.serial,
        None => false,
    }
}

// Lets go of the write with this serial and of the older ones, where it is held. An entry that retires has the oldest
// write that is held, or none.
#[cold]
#[inline(never)]
fn retire_held(slots: &mut [Slot], undo: &mut HeapCircularBuffer<Undo>, serial: u64)
    requires table { Table slots.old undo.old.items }
    ensures table { Table slots.new undo.new.items }
    ensures left { writes_of undo.new.items ≡ without_retired serial (writes_of undo.old.items) }
    ensures same_room { undo.new.capacity ≡ undo.old.capacity }
{
    if is_held(undo, serial) {
        retire_to(slots, undo, serial);
    }
}

// Lets go of the writes up to a serial.
fn retire_to(slots: &mut [Slot], undo: &mut HeapCircularBuffer<Undo>, serial: u64)
    requires table { Table slots.old undo.old.items }
    ensures table { Table slots.new undo.new.items }
    ensures left { writes_of undo.new.items ≡ filter (λ w. nat_lt serial w.serial) (writes_of undo.old.items) }
    ensures same_room { undo.new.capacity ≡ undo.old.capacity }
{
    for turn in 0..undo.len() {
        if !is_front_up_to(undo, serial) {
            return;
        }
        pop_oldest(slots, undo);
    }
}

// Undoes the writes from a serial on, youngest first.
fn undo_from(slots: &mut [Slot], undo: &mut HeapCircularBuffer<Undo>, first: u64)
    requires table { Table slots.old undo.old.items }
    ensures table { Table slots.new undo.new.items }
    ensures left { writes_of undo.new.items ≡ before_serial first (writes_of undo.old.items) }
    ensures same_room { undo.new.capacity ≡ undo.old.capacity }
{
    for turn in 0..undo.len() {
        if !is_back_from(undo, first) {
            return;
        }
        pop_youngest(slots, undo);
    }
}
