//! Entries that come, are woken and go: what they await follows from who writes their sources (`stations`;
//! `docs/machine.md`, "Entries" and "Issue").
ghost use Rattle.std.specs.Prelude.{◌≤◌};

use crate::asserting::assert_same;
use crate::descriptions::{largest, small};
use machine_desc::Desc;
use stations::{Part, Stations, Wants};
use std::alloc::Global;
use std::process::Abort;
use std::test::Fail;

// What the stations tell of the entry at a position: whether it is ready, its first part, its second part, and whether
// it may issue or a part of it.
fn told(stations: &Stations, i: u32) -> [bool; 4] {
    if i >= stations.len() {
        return [false; 4];
    }
    [
        stations.ready(i),
        stations.ready_part(i, Part::Address),
        stations.ready_part(i, Part::Data),
        stations.able(i),
    ]
}

// Two entries with serials 300 and 301, which await these, and what the first needs.
fn two(
    alloc: Global,
    desc: &Desc,
    wants: Wants,
    first: [Option<u64>; 2],
    second: [Option<u64>; 2],
) -> Result<Stations, Fail> {
    let mut stations = Stations::new(alloc, desc)?;
    stations.insert(300, wants, first);
    stations.insert(301, Wants::Whole, second);
    Ok(stations)
}

// What the first entry needs, who are Done then, and what is told of the first and the second entry.
static WOKEN: [(Wants, (u64, u64), [bool; 4], [bool; 4]); 7] = [
    (Wants::Whole, (9, 9), [false; 4], [false; 4]),
    (
        Wants::Whole,
        (259, 9),
        [false, false, true, false],
        [false; 4],
    ),
    (Wants::Whole, (9, 3), [false, true, false, false], [true; 4]),
    (Wants::Whole, (259, 3), [true; 4], [true; 4]),
    (
        Wants::Either,
        (9, 259),
        [false, false, true, true],
        [false; 4],
    ),
    (Wants::Either, (3, 9), [false, true, false, true], [true; 4]),
    (Wants::Either, (3, 259), [true; 4], [true; 4]),
];

// Two entries, of which the first awaits both and the second the first of the two; then these are Done.
fn woken(alloc: Global, desc: &Desc, wants: Wants, done: (u64, u64)) -> Result<Stations, Fail> {
    let awaited = [Some(3), Some(259)];
    let mut stations = two(alloc, desc, wants, awaited, [Some(3), Some(3)])?;
    stations.wake(done.0);
    stations.wake(done.1);
    Ok(stations)
}

// The position of the first of two entries that may issue, of which this is told.
fn first_able(first: &[bool; 4], second: &[bool; 4]) -> Option<u32> {
    if first[3] {
        return Some(0);
    }
    if second[3] {
        return Some(1);
    }
    None
}

// The stations of a description wake their entries.
fn wake(rt: &impl Abort, alloc: Global, desc: &Desc) -> Result<(), Fail> {
    for (wants, done, first, second) in &WOKEN {
        let stations = woken(alloc, desc, *wants, *done)?;
        let both = [told(&stations, 0), told(&stations, 1)];
        assert_same(rt, &(*done, both), &(*done, [*first, *second]));
        let able = first_able(first, second);
        let found = (stations.any_able(), stations.next_able(0));
        assert_same(rt, &(*done, found), &(*done, (able.is_some(), able)));
    }
    Ok(())
}

#[test]
fn who_is_woken_awaits_the_others_yet(rt: HostRuntime) -> Result<(), Fail> {
    let alloc = rt.alloc();
    wake(&rt, alloc, &small(alloc)?)?;
    wake(&rt, alloc, &largest(alloc)?)
}

// What the entry needs once its other part has issued, who is Done then, and whether the entry may issue.
static LEFT: [(Wants, u64, bool); 4] = [
    (Wants::Data, 3, false),
    (Wants::Data, 259, true),
    (Wants::Address, 3, true),
    (Wants::Address, 259, false),
];

#[test]
fn a_part_that_is_left_needs_its_own_source(rt: HostRuntime) -> Result<(), Fail> {
    let alloc = rt.alloc();
    let desc = small(alloc)?;
    for &(wants, done, able) in &LEFT {
        let awaited = [Some(3), Some(259)];
        let mut stations = two(alloc, &desc, Wants::Either, awaited, [Some(9), None])?;
        assert!(rt; stations.len() == 2);
        stations.leave(0, wants);
        stations.wake(done);
        let both = [stations.any_able(), told(&stations, 0)[3]];
        assert_same(&rt, &(wants, done, both), &(wants, done, [able; 2]));
    }
    Ok(())
}

// Of two entries in the stations of a description, of which there are so many, the second stays in its place.
fn stay(rt: &impl Abort, alloc: Global, desc: &Desc, room: u32) -> Result<(), Fail>
    requires { 2 ≤ room }
{
    let none = [None, None];
    let mut stations = two(alloc, desc, Wants::Whole, none, none)?;
    assert!(rt; stations.len() == 2 && stations.free() == room - 2);
    let place = stations.place(1);
    stations.remove(0);
    assert!(rt; stations.len() == 1 && stations.free() == room - 1);
    assert_same(
        rt,
        &(stations.next_able(0), stations.next_able(1)),
        &(Some(0), None),
    );
    assert_same(rt, &(stations.place(0), stations.serial(0)), &(place, 301));
    stations.drop_from(301);
    assert_same(rt, &(stations.len(), stations.free()), &(0, room));
    Ok(())
}

#[test]
fn an_entry_stays_in_its_place(rt: HostRuntime) -> Result<(), Fail> {
    let alloc = rt.alloc();
    stay(&rt, alloc, &small(alloc)?, 8)?;
    stay(&rt, alloc, &largest(alloc)?, 96)
}
