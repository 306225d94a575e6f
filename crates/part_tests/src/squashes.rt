//! A squash behind a wrongly predicted branch, over both tables of names (`squash`; `docs/machine.md`, "Resolve").
ghost use Rattle.std.specs.Prelude.{IfOk};
ghost use Rattle.window_model.specs.Serials.{Rise};

use crate::asserting::assert_same;
use crate::descriptions::small;
use crate::entries::entry;
use lsq::Lsq;
use machine_desc::Desc;
use rename_taint::{ByScan, ByTable, RenameTaint, Source};
use rob_ring::RobRing;
use rv_types::{NoMemory, Reg};
use squash::squash_after;
use stations::{Stations, Wants};
use std::alloc::Global;
use std::process::Abort;
use std::test::Fail;
use unit_ports::Ports;

// The register that the load and the division write.
fn register() -> Reg {
    Reg { number: 5 }
}

// A window of a load with serial 3, a division and a store.
#[tactic(auto, using(window_model::proofs::Serials::rise_push))]
fn window(alloc: Global, desc: &Desc) -> Result<RobRing, NoMemory>
    ensures { IfOk result (λ w. Rise w.entries) }
{
    let mut rob = RobRing::new(alloc, desc)?;
    rob.push(entry(3));
    rob.push(entry(5));
    rob.push(entry(6));
    Ok(rob)
}

// What the load and the division write.
fn names<R: RenameTaint + Drop>(alloc: Global, desc: &Desc) -> Result<R, NoMemory> {
    let mut names = R::new(alloc, desc)?;
    names.write(register(), 3, Some(3));
    names.write(register(), 5, Some(3));
    Ok(names)
}

// The stations of the division, which awaits the load, and of the store.
fn waiting(alloc: Global, desc: &Desc) -> Result<Stations, NoMemory> {
    let mut stations = Stations::new(alloc, desc)?;
    stations.insert(5, Wants::Whole, [Some(3), None]);
    stations.insert(6, Wants::Either, [Some(5), None]);
    Ok(stations)
}

// Loads up to serial 3 take the room that there is for loads; then the store comes.
fn queues(alloc: Global, desc: &Desc) -> Result<Lsq, NoMemory> {
    let mut lsq = Lsq::new(alloc, desc)?;
    for serial in 0..4 {
        if lsq.has_load_room() {
            lsq.add_load(serial);
        }
    }
    if lsq.has_store_room() {
        lsq.add_store(6, Some(3));
    }
    Ok(lsq)
}

// Ports of which the division uses the divider.
fn dividing(desc: &Desc) -> Ports {
    let mut ports = Ports::new(desc);
    ports.divide(30, 5);
    ports
}

// The loads stay, of which the one with serial 3 writes a register. The division into the same register, and the store
// go.
fn squash_keeps_the_load<R: RenameTaint + Drop>(
    rt: &impl Abort,
    alloc: Global,
) -> Result<(), Fail> {
    let desc = small(alloc)?;
    let mut rob = window(alloc, &desc)?;
    let mut names: R = names(alloc, &desc)?;
    let mut stations = waiting(alloc, &desc)?;
    let mut lsq = queues(alloc, &desc)?;
    let mut ports = dividing(&desc);
    let dropped = squash_after(5, &mut rob, &mut names, &mut stations, &mut lsq, &mut ports);
    assert_same(rt, &(dropped, rob.len(), stations.len()), &(2, 1, 0));
    assert_same(rt, &names.source(register()), &Source::Entry(3));
    assert!(rt; !lsq.has_load_room() && lsq.store_at(0).is_none() && ports.free_div());
    Ok(())
}

#[test]
fn what_is_younger_goes(rt: HostRuntime) -> Result<(), Fail> {
    squash_keeps_the_load::<ByScan>(&rt, rt.alloc())?;
    squash_keeps_the_load::<ByTable>(&rt, rt.alloc())
}
