//! Rename where there is little room, where a call comes in, and where loads pass stores; the expected values follow
//! from `docs/machine.md`, "Rename", "Writers and roots" and "Clear".
use crate::asserting::assert_same;
use crate::descriptions::{WIDE, changed, described};
use crate::flights::Phase;
use crate::phases::{parts_of, perform};
use crate::settings::PASSING;
use core_parts::Parts;
use machine_desc::{Desc, EXAMPLE};
use rename_taint::{ByScan, ByTable, RenameTaint, Source};
use rob_ring::RobRing;
use rv_types::Reg;
use std::alloc::Global;
use std::process::Abort;
use std::test::Fail;
use window_model::{Event, empty_row};

// lw x5,0(x6); sub x7,x6,x5; sw x5,0(x7); ecall
const WORDS: [u32; 4] = [0x0003_2283, 0x4053_03b3, 0x0053_a023, 0x0000_0073];

// The description with four items a cycle, and room for one load and one store.
fn narrow(rt: &impl Abort, alloc: Global) -> Result<Desc, Fail> {
    let changes = [
        WIDE,
        ("loads = 4", "loads = 1"),
        ("stores = 4", "stores = 1"),
    ];
    changed(rt, alloc, EXAMPLE, &changes)
}

// What comes in of these words in the first cycle, with these events.
fn come_in<R: RenameTaint + Drop>(
    rt: &impl Abort,
    alloc: Global,
    desc: &Desc,
    words: &[u32],
    events: &[Event],
) -> Result<Box<Parts<R>>, Fail> {
    let mut parts: Box<Parts<R>> = parts_of(alloc, desc, words)?;
    let mut row = empty_row();
    perform(rt, 1, Phase::Fetch, &mut parts, &mut row);
    perform(rt, 1, Phase::Rename, &mut parts, &mut row);
    assert_same(rt, &row.events(), &events);
    Ok(parts)
}

// The names after the first three: the subtraction awaits the load, and the store both. What they read flows from the
// load, which is the one root.
fn assert_names<R: RenameTaint>(rt: &impl Abort, table: &R) {
    assert_same(rt, &table.source(Reg { number: 5 }), &Source::Entry(0));
    assert_same(rt, &table.source(Reg { number: 7 }), &Source::Entry(1));
    assert_same(rt, &table.root(Reg { number: 7 }), &Some(0));
}

// Three have come in, with one load and one store, and there is no room for another.
fn assert_three<R: RenameTaint>(rt: &impl Abort, parts: &Parts<R>) {
    let lsq = parts.lsq();
    let rooms = (lsq.has_load_room(), lsq.has_store_room());
    assert_same(rt, &(parts.rob().len(), parts.stations().len()), &(3, 3));
    assert_same(rt, &rooms, &(false, false));
    assert_names(rt, parts.table());
}

// The first three come in. The call waits for all three to retire.
fn three_come_in<R: RenameTaint + Drop>(rt: &impl Abort, alloc: Global) -> Result<(), Fail> {
    let desc = narrow(rt, alloc)?;
    let events = [
        Event::Ren(0, 0x0001_0000),
        Event::Ren(1, 0x0001_0004),
        Event::Ren(2, 0x0001_0008),
    ];
    let parts: Box<Parts<R>> = come_in(rt, alloc, &desc, &WORDS, &events)?;
    assert_three(rt, &parts);
    Ok(())
}

#[test]
fn they_come_in_over_both_tables(rt: HostRuntime) -> Result<(), Fail> {
    three_come_in::<ByTable>(&rt, rt.alloc())?;
    three_come_in::<ByScan>(&rt, rt.alloc())
}

#[test]
fn a_call_comes_in_alone(rt: HostRuntime) -> Result<(), Fail> {
    let desc = narrow(&rt, rt.alloc())?;
    // ecall; addi x5,x5,7
    let words = [0x0000_0073, 0x0072_8293];
    let events = [Event::Ren(0, 0x0001_0000)];
    let _: Box<Parts<ByTable>> = come_in(&rt, rt.alloc(), &desc, &words, &events)?;
    Ok(())
}

// Whether each of two entries is cleared.
fn cleared(rt: &impl Abort, rob: &RobRing) -> (bool, bool) {
    if rob.len() != 2 {
        panic!(rt; "both come in");
    }
    (rob.lend(0).cleared, rob.lend(1).cleared)
}

#[test]
fn a_store_that_loads_may_pass_comes_in_uncleared(rt: HostRuntime) -> Result<(), Fail> {
    let desc = described(rt.alloc(), PASSING)?;
    // sw x5,0(x7); lw x5,0(x6)
    let words = [0x0053_a023, 0x0003_2283];
    let events = [Event::Ren(0, 0x0001_0000), Event::Ren(1, 0x0001_0004)];
    let parts: Box<Parts<ByTable>> = come_in(&rt, rt.alloc(), &desc, &words, &events)?;
    assert_same(&rt, &cleared(&rt, parts.rob()), &(false, true));
    Ok(())
}
