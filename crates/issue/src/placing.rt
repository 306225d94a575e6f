//! The entries that issue, or of which a part does, in their places (`docs/architecture.md`, "How the parts refine the
//! window").
ghost use Rattle.std.specs.Prelude.{◌≡◌, ◌<◌, length, true};
ghost use Rattle.machine_desc.specs.Questions.{loads_pass};
ghost use Rattle.window_model.specs.Order.{has_address, is_store};
ghost use Rattle.window_model.specs.Retire.{byte_count};
ghost use Rattle.refinement.specs.Noted.{queues_with_parts, noted_load, with_span};
ghost use Rattle.refinement.specs.InFlight.{InFlight};
ghost use Rattle.refinement.specs.Refines.{Refines};
ghost use Rattle.refinement.specs.Waiters.{wants_by, wants_of};
ghost use Rattle.refinement.specs.Stations.{left_held};
ghost use Rattle.issue.specs.Parts.{holding};
ghost use Rattle.issue.specs.Puts.{ArePuts, known_in, window_with_puts, width_for};

use core_parts::Puts;
use lsq::{IssuedLoad, Lsq, Span};
use machine_desc::Desc;
use rob_ring::RobRing;
use stations::{Stations, Wants};
use window_model::{Entry, Progress};

// What a store wants whose address and data part have issued or not.
fn wants_by(address: bool, stored: bool) -> Wants
    ensures { result ≡ wants_by address stored }
{
    match (address, stored) {
        (false, false) => Wants::Either,
        (false, true) => Wants::Address,
        (true, _) => Wants::Data,
    }
}

// What an entry that waits wants in the machine of a description.
fn wants_of(desc: &Desc, entry: &Entry) -> Wants
    ensures { result ≡ wants_of desc.now.version entry.now }
{
    if entry.is_store() && !desc.stores_in_one() {
        return wants_by(entry.addr_due.is_some(), entry.data_due.is_some());
    }
    Wants::Whole
}

// The station of an entry that has issued, or of which a part has, is freed, where it no longer waits; else it waits
// for what is left.
fn settle(stations: &mut Stations, desc: &Desc, station: u32, entry: &Entry)
    requires within { station < length stations.old.held }
    ensures { stations.new ≡ record stations.old {
      held = left_held desc.now.version station entry.now stations.old.held;
    } }
{
    match entry.state {
        Progress::Waiting => stations.leave(station, wants_of(desc, entry)),
        _ => stations.remove(station),
    }
}

// Where a store writes is known to the queue of stores once its address part has issued, and from which cycle on it is
// known.
#[tactic(auto, using(crate::proofs::Width::width_is))]
fn note_address(lsq: &mut Lsq, entry: &Entry)
    ensures { lsq.new ≡ record lsq.old {
      stores = with_span (has_address entry.now) (width_for (byte_count entry.now)) entry.now lsq.old.stores;
    } }
{
    if let Some(due) = entry.addr_due {
        let span = Span {
            addr: entry.addr(),
            width: entry.width(),
            fault: entry.fault(),
            known_from: due,
        };
        lsq.store_addr(entry.serial, span);
    }
}

// What has issued of an entry is known to the queue of stores, if it is a store.
fn note_store(lsq: &mut Lsq, entry: &Entry)
    ensures { lsq.new ≡ queues_with_parts (width_for (byte_count entry.now)) entry.now lsq.old }
{
    if !entry.is_store() {
        return;
    }
    note_address(lsq, entry);
    if entry.data_due.is_some() {
        lsq.store_data(entry.serial, entry.stored());
    }
}

// What an entry reads is known to the queue of loads, if it is a load that has issued, and loads may pass stores.
#[tactic(auto, using(crate::proofs::Width::width_is))]
fn note_load(lsq: &mut Lsq, desc: &Desc, entry: &Entry)
    ensures { lsq.new ≡ noted_load (loads_pass desc.now) (width_for (byte_count entry.now)) entry.now lsq.old }
{
    if !desc.loads_pass() || !entry.is_load() {
        return;
    }
    if let Some(cycle) = entry.issued {
        let access = IssuedLoad {
            addr: entry.addr(),
            width: entry.width(),
            fault: entry.fault(),
            cycle,
        };
        lsq.load_issued(entry.serial, access);
    }
}

// What has issued of an entry is known to the queues: of a store its parts, of a load what it reads, where loads may
// pass stores.
fn note(lsq: &mut Lsq, desc: &Desc, entry: &Entry)
    ensures { lsq.new ≡ known_in (loads_pass desc.now) lsq.old entry.now }
{
    note_store(lsq, entry);
    note_load(lsq, desc, entry);
}

/// Puts entries in their places, youngest first, so that the older ones' stations stay where they are: an entry issues,
/// its station is freed or waits for what is left, a store's parts that have issued are known to its queue, and so is
/// what a load reads, where loads may pass stores.
pub(crate) fn place(
    puts: &Puts,
    desc: &Desc,
    rob: &mut RobRing,
    stations: &mut Stations,
    lsq: &mut Lsq,
)
    requires puts { ArePuts rob.old.entries puts.now.items }
    requires refines { (p : InFlight) × Refines (holding desc.now rob.old stations.old lsq.old p) }
    ensures window { rob.new ≡ record rob.old { entries = window_with_puts puts.now.items rob.old.entries } }
    ensures same_places { stations.new.room ≡ stations.old.room }
    ensures same_loads { lsq.new.max_loads ≡ lsq.old.max_loads }
    ensures same_stores { lsq.new.max_stores ≡ lsq.old.max_stores }
    ensures refines { (p : InFlight) → Refines (holding desc.now rob.old stations.old lsq.old p)
        → Refines (holding desc.now rob.new stations.new lsq.new p) }
{
    let listed = puts.as_slice();
    for k in (0..listed.len()).rev() {
        let put = &listed[k];
        rob.issue(put.position, &put.issued);
        let entry = rob.lend(put.position);
        settle(stations, desc, put.station, entry);
        note(lsq, desc, entry);
    }
}
