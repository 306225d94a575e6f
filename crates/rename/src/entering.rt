//! An entry comes into the parts (`docs/machine.md`, "Rename").
ghost use Rattle.std.specs.Prelude.{◌≡◌, ◌<◌, ◌++◌, ◌∷◌, [], ◌&&◌, if◌then◌else◌, ℕ, true, false, not, length};
ghost use Rattle.std.specs.List.{All};
ghost use Rattle.circular_buffer.specs.Buffer.{buffer};
ghost use Rattle.machine_desc.specs.Questions.{stores_in_one};
ghost use Rattle.window_model.specs.Dependence.{needs_clearing};
ghost use Rattle.window_model.specs.Rename.{at_once, entry_of_item};
ghost use Rattle.window_model.specs.Order.{is_load, is_store};
ghost use Rattle.stations.specs.declared.wants.Wants.TheVariants as wants;
ghost use Rattle.refinement.specs.Roots.{base_root};
ghost use Rattle.refinement.specs.Steps.{queues_with_entry};
ghost use Rattle.rename.specs.Entering.{with_station, with_write, write_by};

use crate::room::is_at_once;
use circular_buffer::HeapCircularBuffer;
use lsq::Lsq;
use machine_desc::Desc;
use rename_taint::{RenameTaint, root_written};
use rob_ring::{RobRing, Sources};
use rv_types::{Kind, writes_of};
use stations::{Stations, Wants};
use window_model::{Entry, Item, Progress};

/// The item comes into the window, which has room, as its youngest entry.
pub(crate) fn add_entry(serial: u64, item: &Item, desc: &Desc, rob: &mut RobRing)
    requires { length rob.old.entries < rob.old.room }
    ensures { rob.new
        ≡ record rob.old { entries = rob.old.entries ++ entry_of_item desc.now serial item.now ∷ [] } }
{
    rob.push(renamed(serial, item, desc));
}

// What has to be cleared: a store that loads may pass.
fn needs_clearing(kind: Kind, desc: &Desc) -> bool
    ensures { result ≡ needs_clearing desc.now kind }
{
    match kind {
        Kind::Store => desc.loads_pass(),
        _ => false,
    }
}

// The item as an entry.
fn renamed(serial: u64, item: &Item, desc: &Desc) -> Entry
    ensures { result ≡ entry_of_item desc.now serial item.now }
{
    let state = if is_at_once(item.kind) {
        Progress::Done
    } else {
        Progress::Waiting
    };
    Entry {
        serial,
        item: *item,
        state,
        outcome: None,
        resolved: false,
        issued: None,
        addr_due: None,
        data_due: None,
        cleared: !needs_clearing(item.kind, desc),
    }
}

/// The entry's write is held, if it writes a register.
pub(crate) fn add_write<R: RenameTaint>(
    serial: u64,
    item: &Item,
    sources: [Option<u64>; 2],
    table: &mut R,
)
    requires room { length (R.writes table.old) < R.room table.old }
    requires youngest { All (λ w. w.serial < serial) (R.writes table.old) }
    ensures table { R.writes table.new ≡ with_write (write_by serial item.now sources) (R.writes table.old) }
    ensures same_room { R.room table.new ≡ R.room table.old }
{
    if let Some(register) = writes_of(&item.instr) {
        let root = root_written(item.kind, serial, sources);
        table.write(register, serial, root);
    }
}

// What an item that comes in waits for: all its sources, but a store whose parts issue apart for either.
fn wants_of(desc: &Desc, kind: Kind) -> Wants
    ensures { result ≡ (if is_store kind && not (stores_in_one desc.now) then wants.Either else wants.Whole) }
{
    match kind {
        Kind::Store if !desc.stores_in_one() => Wants::Either,
        _ => Wants::Whole,
    }
}

/// The entry gets a station, if it waits: unless it is done at once.
pub(crate) fn add_station(
    serial: u64,
    item: &Item,
    desc: &Desc,
    awaits: [Option<u64>; 2],
    stations: &mut Stations,
)
    requires room { at_once item.now.kind ≡ false → length stations.old.held < stations.old.room }
    requires youngest { All (λ s. s.serial < serial) stations.old.held }
    ensures { (place : ℕ) × (stations.new
        ≡ with_station desc.now.version place awaits (entry_of_item desc.now serial item.now) stations.old) }
{
    if !is_at_once(item.kind) {
        stations.insert(serial, wants_of(desc, item.kind), awaits);
    }
}

/// A load comes into its queue, and a store into its own, with the youngest root of its address: of its first source.
pub(crate) fn add_access(serial: u64, kind: Kind, sources: [Option<u64>; 2], lsq: &mut Lsq)
    requires load { is_load kind ≡ true → length lsq.old.loads < lsq.old.max_loads }
    requires store { is_store kind ≡ true → length lsq.old.stores < lsq.old.max_stores }
    ensures { lsq.new ≡ queues_with_entry kind serial (base_root sources) lsq.old }
{
    let [base, _] = sources;
    match kind {
        Kind::Load => lsq.add_load(serial),
        Kind::Store => lsq.add_store(serial, base),
        _ => {}
    }
}

/// Appends where there is room.
pub(crate) fn push_within(ring: &mut HeapCircularBuffer<Sources>, sources: Sources)
    requires { length ring.old.items < ring.old.capacity }
    ensures { ring.new ≡ buffer (ring.old.items ++ sources ∷ []) ring.old.capacity }
{
    let _ = ring.try_push_back(sources);
}
