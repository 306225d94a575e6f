//! Queues that are filled, asked and emptied (`lsq`; `docs/machine.md`, "Loads", "Rename", "Issue" and "Clear").
use crate::asserting::assert_same;
use crate::descriptions::{largest, small};
use byte_ram::Ram;
use lsq::{IssuedLoad, Keeper, Keepers, Kept, LoadRequest, Lsq, Merged, Pending, Span};
use machine_desc::Desc;
use rv_types::{Cause, Width};
use std::alloc::Global;
use std::process::Abort;
use std::test::Fail;

const BASE: u32 = 65536;

// A store: its serial and root, where it writes, and what, each if that is known.
type Stored = (u64, Option<u64>, Option<Span>, Option<u32>);

// Whether there was room for the load, which is then added.
fn add_load(lsq: &mut Lsq, serial: u64) -> bool {
    if !lsq.has_load_room() {
        return false;
    }
    lsq.add_load(serial);
    true
}

// Whether there was room for the store, which is then added.
fn add_store(lsq: &mut Lsq, serial: u64, root: Option<u64>) -> bool {
    if !lsq.has_store_room() {
        return false;
    }
    lsq.add_store(serial, root);
    true
}

// What is known of the store is noted.
fn note(lsq: &mut Lsq, serial: u64, span: Option<Span>, stored: Option<u32>) {
    if let Some(span) = span {
        lsq.store_addr(serial, span);
    }
    if let Some(stored) = stored {
        lsq.store_data(serial, stored);
    }
}

// Small queues with these stores.
fn with_stores(rt: &impl Abort, alloc: Global, stores: &[Stored]) -> Result<Lsq, Fail> {
    let mut lsq = Lsq::new(alloc, &small(alloc)?)?;
    for (serial, root, span, stored) in stores {
        assert!(rt; add_store(&mut lsq, *serial, *root));
        note(&mut lsq, *serial, *span, *stored);
    }
    Ok(lsq)
}

// A store writes there, which is known from this cycle on.
fn span(addr: u32, width: Width, fault: Option<Cause>, known_from: u64) -> Option<Span> {
    Some(Span {
        addr,
        width,
        fault,
        known_from,
    })
}

// What a load finds, None where the access has a fault.
#[tactic(auto, using(crate::proofs::Faultless::answered))]
fn found(lsq: &Lsq, serial: u64, ram: &Ram, addr: u32, width: Width) -> Option<Merged> {
    match ram.get(addr, width) {
        Ok(_) => {
            let request = LoadRequest {
                addr,
                width,
                fault: None,
            };
            Some(lsq.merge(serial, &request, ram))
        }
        Err(_) => None,
    }
}

fn merged(value: u32, covered: bool, root: Option<u64>) -> Option<Merged> {
    Some(Merged {
        value,
        covered,
        root,
    })
}

// Stores with all their parts, and one with none. One with a fault gives nothing, but its address has a root as any
// other's.
fn stores_to_merge(rt: &impl Abort, alloc: Global) -> Result<Lsq, Fail> {
    let outside = Some(Cause::store_outside());
    let stores = [
        (3, None, span(BASE, Width::H, None, 20), Some(0xbeef)),
        (5, Some(2), span(BASE + 1, Width::B, None, 20), Some(0x1cd)),
        (
            8,
            Some(1),
            span(BASE, Width::W, outside, 21),
            Some(0x5566_7788),
        ),
        (12, Some(11), None, None),
    ];
    with_stores(rt, alloc, &stores)
}

// A load's serial, address and width; and the value that it finds, whether stores give all of it, and the root, None
// where the access has a fault.
static MERGED: [(u64, u32, Width, Option<(u32, bool, Option<u64>)>); 7] = [
    (3, BASE, Width::W, Some((0x4433_2211, false, None))),
    (5, BASE, Width::H, Some((0xbeef, true, None))),
    (7, BASE, Width::H, Some((0xcdef, true, Some(2)))),
    (10, BASE, Width::W, Some((0x4433_cdef, false, Some(2)))),
    (10, BASE + 1, Width::B, Some((0xcd, true, Some(2)))),
    (13, BASE + 2, Width::B, Some((0x33, false, Some(11)))),
    (13, BASE + 1, Width::H, None),
];

// What a load finds, taken apart.
fn taken_apart(merged: Option<Merged>) -> Option<(u32, bool, Option<u64>)> {
    match merged {
        Some(merged) => Some((merged.value, merged.covered, merged.root)),
        None => None,
    }
}

#[test]
fn a_load_finds_the_youngest_bytes_before_it(rt: HostRuntime) -> Result<(), Fail> {
    let alloc = rt.alloc();
    let mut ram = Ram::new(alloc, BASE, 64, false)?;
    assert!(rt; ram.put(BASE, Width::W, 0x4433_2211).is_ok());
    let mut lsq = stores_to_merge(&rt, alloc)?;
    assert!(rt; !add_store(&mut lsq, 13, None));
    for &(serial, addr, width, want) in &MERGED {
        let told = taken_apart(found(&lsq, serial, &ram, addr, width));
        assert_same(&rt, &(serial, addr, told), &(serial, addr, want));
    }
    lsq.cut(8);
    lsq.pop(3);
    let left = found(&lsq, 20, &ram, BASE, Width::H);
    assert_same(&rt, &left, &merged(0xcd11, false, Some(2)));
    Ok(())
}

// Stores of which the first has both its parts; the second only its address, the third too, with a fault; the last
// only its data.
fn stores_in_part(rt: &impl Abort, alloc: Global) -> Result<Lsq, Fail> {
    let outside = Some(Cause::store_outside());
    let stores = [
        (3, Some(1), span(BASE, Width::W, None, 20), Some(7)),
        (5, Some(2), span(BASE + 2, Width::H, None, 20), None),
        (8, Some(4), span(BASE + 4, Width::W, outside, 21), None),
        (12, Some(11), None, Some(9)),
    ];
    with_stores(rt, alloc, &stores)
}

// A load's serial, address and width, and whether it has a fault; whether it waits for an address, and for data, and
// the root.
static WAITS: [(u64, u32, Width, bool, (bool, bool, Option<u64>)); 8] = [
    (4, BASE, Width::W, false, (false, false, None)),
    (6, BASE + 3, Width::B, false, (false, true, Some(2))),
    (6, BASE, Width::W, false, (false, true, Some(2))),
    (6, BASE, Width::H, false, (false, false, Some(2))),
    (6, BASE + 1, Width::W, true, (false, false, Some(2))),
    (9, BASE + 4, Width::B, false, (false, false, Some(4))),
    (13, BASE + 2, Width::H, false, (true, true, Some(4))),
    (13, BASE + 8, Width::W, false, (true, false, Some(4))),
];

fn request_of(addr: u32, width: Width, is_faulty: bool) -> LoadRequest {
    let fault = if is_faulty {
        Some(Cause::load_misaligned())
    } else {
        None
    };
    LoadRequest { addr, width, fault }
}

// What a load waits for, and each of the first two as it is asked for by itself.
fn waits(lsq: &Lsq, serial: u64, request: &LoadRequest) -> (Pending, [bool; 2]) {
    let apart = [
        lsq.awaits_address(serial),
        lsq.keeper(serial, request).is_some(),
    ];
    (lsq.pending(serial, request), apart)
}

#[test]
fn a_load_waits_for_parts_of_older_stores(rt: HostRuntime) -> Result<(), Fail> {
    let lsq = stores_in_part(&rt, rt.alloc())?;
    for &(serial, addr, width, is_faulty, (address, overlap, root)) in &WAITS {
        let told = waits(&lsq, serial, &request_of(addr, width, is_faulty));
        let want = Pending {
            address,
            overlap,
            root,
        };
        assert_same(
            &rt,
            &(serial, addr, told),
            &(serial, addr, (want, [address, overlap])),
        );
    }
    // Up to the second store each has both its parts.
    assert!(rt; lsq.all_older_known(5) && !lsq.all_older_known(6));
    Ok(())
}

// Whether the store of a keeper keeps the loads with serials 13 and 5, None where there is no such store.
fn keeps(lsq: &Lsq, keeper: &Keeper, request: &LoadRequest) -> Option<[bool; 2]> {
    match lsq.store(keeper) {
        Some(store) => Some([store.keeps(13, request), store.keeps(5, request)]),
        None => None,
    }
}

// The oldest store that lacks data for bytes of a load keeps it, and is found by its serial.
#[test]
fn the_store_that_keeps_a_load_is_found(rt: HostRuntime) -> Result<(), Fail> {
    let lsq = stores_in_part(&rt, rt.alloc())?;
    let request = request_of(BASE + 2, Width::H, false);
    let Some(keeper) = lsq.keeper(13, &request) else {
        panic!(rt; "no store keeps the load");
    };
    assert_same(&rt, &keeper.serial, &5);
    assert_same(&rt, &keeps(&lsq, &keeper, &request), &Some([true, false]));
    let other = Keeper {
        serial: 6,
        ..keeper
    };
    assert_same(&rt, &keeps(&lsq, &other, &request), &None);
    Ok(())
}

#[test]
fn the_store_that_kept_a_load_is_noted(rt: HostRuntime) -> Result<(), Fail> {
    let mut keepers = Keepers::none();
    assert!(rt; keepers.keeper(6).is_none());
    let (serial, number) = (5, 2);
    let keeper = Keeper { serial, number };
    keepers.note(Some(Kept { load: 70, keeper }));
    keepers.note(None);
    assert_same(&rt, &keepers.keeper(6), &Some(keeper));
    assert!(rt; keepers.keeper(7).is_none());
    Ok(())
}

// The queues of a description have room for so many loads and stores, and again for as many as leave.
fn has_room_for(
    rt: &impl Abort,
    alloc: Global,
    desc: &Desc,
    loads: u32,
    stores: u32,
) -> Result<(), Fail> {
    let mut lsq = Lsq::new(alloc, desc)?;
    for serial in 0..loads {
        assert!(rt; add_load(&mut lsq, serial as u64));
    }
    for serial in 0..stores {
        assert!(rt; add_store(&mut lsq, 100 + serial as u64, None));
    }
    assert!(rt; !add_load(&mut lsq, 200) && !add_store(&mut lsq, 200, None));
    // The oldest load and store retire, the youngest store is dropped.
    lsq.pop(0);
    lsq.pop(100);
    lsq.cut(99 + stores as u64);
    assert!(rt; add_load(&mut lsq, 201) && !add_load(&mut lsq, 202));
    for serial in [203, 204] {
        assert!(rt; add_store(&mut lsq, serial, None));
    }
    assert!(rt; !add_store(&mut lsq, 205, None));
    Ok(())
}

#[test]
fn the_queues_have_room_for_four_and_for_64_and_48(rt: HostRuntime) -> Result<(), Fail> {
    let alloc = rt.alloc();
    has_room_for(&rt, alloc, &small(alloc)?, 4, 4)?;
    has_room_for(&rt, alloc, &largest(alloc)?, 64, 48)
}

// The serial of the store at a place, if there is one.
fn serial_at(lsq: &Lsq, place: u32) -> Option<u64> {
    match lsq.store_at(place) {
        Some(store) => Some(store.serial),
        None => None,
    }
}

// The serials of the first stores.
type Serials = (Option<u64>, Option<u64>, Option<u64>, Option<u64>);

fn serials(lsq: &Lsq) -> Serials {
    (
        serial_at(lsq, 0),
        serial_at(lsq, 1),
        serial_at(lsq, 2),
        serial_at(lsq, 3),
    )
}

// The serial of who isn't there, older than all or not, takes none; the oldest and another take themselves. With each
// the serials that are left.
static LEFT: [(u64, Serials); 5] = [
    (2, (Some(3), Some(5), Some(8), Some(12))),
    (3, (Some(5), Some(8), Some(12), None)),
    (4, (Some(5), Some(8), Some(12), None)),
    (8, (Some(5), Some(12), None, None)),
    (9, (Some(5), Some(12), None, None)),
];

#[test]
fn who_retires_leaves_its_queue(rt: HostRuntime) -> Result<(), Fail> {
    let alloc = rt.alloc();
    let mut lsq = Lsq::new(alloc, &small(alloc)?)?;
    for serial in [3, 5, 8, 12] {
        assert!(rt; add_store(&mut lsq, serial, None));
    }
    for &(serial, left) in &LEFT {
        lsq.pop(serial);
        assert_same(&rt, &(serial, serials(&lsq)), &(serial, left));
    }
    // Serials that fall: who is older than the first may be there.
    assert!(rt; add_store(&mut lsq, 4, None));
    lsq.pop(4);
    assert_same(&rt, &serials(&lsq), &(Some(5), Some(12), None, None));
    Ok(())
}

// A load issues in this cycle.
fn access(addr: u32, width: Width, fault: Option<Cause>, cycle: u64) -> IssuedLoad {
    IssuedLoad {
        addr,
        width,
        fault,
        cycle,
    }
}

// Stores of which three are known, one of them with a fault, from cycle 8 on; and a load before and three behind them.
fn passed_stores(rt: &impl Abort, alloc: Global) -> Result<Lsq, Fail> {
    let outside = Some(Cause::store_outside());
    let stores = [
        (3, None, span(BASE, Width::W, outside, 8), None),
        (4, Some(2), span(BASE + 16, Width::W, None, 8), None),
        (5, Some(2), span(BASE + 2, Width::H, None, 8), None),
        (12, Some(9), None, None),
    ];
    let mut lsq = with_stores(rt, alloc, &stores)?;
    let loads = [
        (2, access(BASE, Width::W, None, 6)),
        (6, access(BASE + 3, Width::B, None, 8)),
        (
            7,
            access(BASE + 1, Width::W, Some(Cause::load_misaligned()), 6),
        ),
        (9, access(BASE, Width::W, None, 7)),
    ];
    for (serial, access) in loads {
        assert!(rt; add_load(&mut lsq, serial));
        lsq.load_issued(serial, access);
    }
    Ok(lsq)
}

// A store's serial, and the load that is violated as it is cleared. Of store 5 the first load behind it issued once its
// address was known, and the second has a fault. Then a store with a fault, one that writes elsewhere, one of unknown
// address, and one that isn't there.
static VIOLATED: [(u64, Option<u64>); 4] = [(5, Some(9)), (3, None), (12, None), (8, None)];

// The store at each place, and what is told of it.
static CLEARED: [(u32, Option<(u64, Option<u64>, bool, bool)>); 5] = [
    (0, Some((3, None, true, true))),
    (1, Some((4, Some(2), true, false))),
    (2, Some((5, Some(2), true, true))),
    (3, Some((12, Some(9), false, true))),
    (4, None),
];

// The serial of the store at a place, its root, whether its address is known, and whether it is cleared.
fn told_at(lsq: &Lsq, place: u32) -> Option<(u64, Option<u64>, bool, bool)> {
    match lsq.store_at(place) {
        Some(store) => Some((store.serial, store.root, store.known, store.cleared)),
        None => None,
    }
}

// Stores that were cleared in turn.
fn cleared_stores(rt: &impl Abort, alloc: Global) -> Result<Lsq, Fail> {
    let mut lsq = passed_stores(rt, alloc)?;
    for &(serial, violated) in &VIOLATED {
        assert_same(rt, &(serial, lsq.clear(serial)), &(serial, violated));
    }
    Ok(lsq)
}

#[test]
fn the_oldest_load_that_passed_wrongly_is_violated(rt: HostRuntime) -> Result<(), Fail> {
    let lsq = cleared_stores(&rt, rt.alloc())?;
    for &(place, store) in &CLEARED {
        assert_same(&rt, &(place, told_at(&lsq, place)), &(place, store));
    }
    Ok(())
}

// Where two loads passed a store wrongly the oldest is violated, also where it issued last; a load that hasn't issued
// isn't.
#[test]
fn the_oldest_of_two_is_violated(rt: HostRuntime) -> Result<(), Fail> {
    let mut lsq = cleared_stores(&rt, rt.alloc())?;
    assert_same(&rt, &lsq.clear(4), &None);
    lsq.cut(7);
    assert!(rt; add_load(&mut lsq, 10) && add_load(&mut lsq, 11));
    lsq.load_issued(11, access(BASE + 2, Width::H, None, 3));
    assert_same(&rt, &lsq.clear(5), &Some(11));
    lsq.load_issued(10, access(BASE + 3, Width::B, None, 7));
    assert_same(&rt, &lsq.clear(5), &Some(10));
    Ok(())
}
