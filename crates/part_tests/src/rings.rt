//! A ring that is filled, changed and emptied again, and the positions of serials with gaps (`rob_ring`;
//! `docs/machine.md`, "Entries" and "Safe and visible").
ghost use Rattle.std.specs.Prelude.{◌≡◌, IfOk};
ghost use Rattle.window_model.specs.Serials.{Rise};

use crate::asserting::assert_same;
use crate::descriptions::{largest, small};
use crate::entries::{Word, entry, entry_of, with_outcome};
use rob_ring::{Issued, RobRing};
use rv_types::Cause;
use std::alloc::Global;
use std::process::Abort;
use std::test::Fail;
use window_model::{Entry, Progress, Window};

// An entry that is put into a ring.
#[derive(Clone, Copy)]
enum Which {
    Branch,
    Faulty,
}

// A branch with serial 4 that waits, or a load with serial 7 and a fault.
fn entry_to_put(which: Which) -> Entry {
    match which {
        Which::Branch => entry_of(4, Word::Branch, Progress::Waiting),
        Which::Faulty => {
            let fault = Some(Cause::load_outside());
            with_outcome(entry_of(7, Word::Load, Progress::Done), 5, 4, fault)
        }
    }
}

// What is done with a ring, at a position.
#[derive(Clone, Copy)]
enum Step {
    Set(u32, Which),
    Resolve(u32),
    Clear(u32),
    Finish(u32),
    Cut(u32),
    Pop,
}

// The step is done, where there is such a position.
fn go(rt: &impl Abort, ring: &mut RobRing, step: Step) {
    let len = ring.len();
    match step {
        Step::Set(i, which) if i < len => ring.set(i, entry_to_put(which)),
        Step::Resolve(i) if i < len => ring.resolve(i),
        Step::Clear(i) if i < len => ring.clear(i),
        Step::Finish(i) if i < len => ring.finish(i),
        Step::Cut(len) => ring.cut(len),
        Step::Pop if len > 0 => ring.pop_head(),
        _ => panic!(rt; "no place"),
    }
}

// Who executes, who isn't settled and who isn't safe: the first from a position on.
type Next = (Option<u32>, Option<u32>, Option<u32>);

fn next(ring: &RobRing, from: u32) -> Next {
    (
        ring.next_busy(from),
        ring.next_open(from),
        ring.next_unsafe(from),
    )
}

// The youngest entry of a window.
fn youngest<W: Window>(window: &W) -> Option<Entry> {
    match window.len() {
        0 => None,
        len => Some(*window.lend(len - 1)),
    }
}

// The serial of an entry, if there is one.
fn serial_of(entry: Option<Entry>) -> Option<u64> {
    match entry {
        Some(entry) => Some(entry.serial),
        None => None,
    }
}

// How many there are, and the serials of the oldest and the youngest.
type Ends = (u32, Option<u64>, Option<u64>);

fn ends(ring: &RobRing) -> Ends {
    (
        ring.len(),
        serial_of(ring.head()),
        serial_of(youngest(ring)),
    )
}

// A load that executes, a branch, a store that isn't cleared, and an addition that executes.
fn four(alloc: Global) -> Result<RobRing, Fail> {
    let store = Entry {
        cleared: false,
        ..entry_of(7, Word::Store, Progress::Done)
    };
    let mut ring = RobRing::new(alloc, &small(alloc)?)?;
    ring.push(entry_of(3, Word::Load, Progress::Busy(9)));
    ring.push(entry_to_put(Which::Branch));
    ring.push(store);
    ring.push(entry_of(8, Word::Sum, Progress::Busy(9)));
    Ok(ring)
}

// Steps, how many entries there are then, the serials of the oldest and the youngest, and who is told first.
static STEPS: [(Step, Ends, Next); 11] = [
    (
        Step::Finish(0),
        (4, Some(3), Some(8)),
        (Some(3), Some(1), Some(1)),
    ),
    (
        Step::Resolve(1),
        (4, Some(3), Some(8)),
        (Some(3), Some(2), Some(2)),
    ),
    // To be resolved is nothing to a store.
    (
        Step::Resolve(2),
        (4, Some(3), Some(8)),
        (Some(3), Some(2), Some(2)),
    ),
    (Step::Clear(2), (4, Some(3), Some(8)), (Some(3), None, None)),
    (Step::Pop, (3, Some(4), Some(8)), (Some(2), None, None)),
    (
        Step::Set(0, Which::Branch),
        (3, Some(4), Some(8)),
        (Some(2), Some(0), Some(0)),
    ),
    (
        Step::Set(1, Which::Faulty),
        (3, Some(4), Some(8)),
        (Some(2), Some(0), Some(0)),
    ),
    (
        Step::Resolve(0),
        (3, Some(4), Some(8)),
        (Some(2), None, Some(1)),
    ),
    (
        Step::Finish(2),
        (3, Some(4), Some(8)),
        (None, None, Some(1)),
    ),
    (Step::Cut(1), (1, Some(4), Some(4)), (None, None, None)),
    (Step::Pop, (0, None, None), (None, None, None)),
];

#[test]
fn a_ring_tells_what_its_entries_are(rt: HostRuntime) -> Result<(), Fail> {
    let mut ring = four(rt.alloc())?;
    assert_same(&rt, &ends(&ring), &(4, Some(3), Some(8)));
    assert_same(&rt, &next(&ring, 0), &(Some(0), Some(1), Some(0)));
    for &(step, wanted, told) in &STEPS {
        go(&rt, &mut ring, step);
        assert_same(&rt, &(ends(&ring), next(&ring, 0)), &(wanted, told));
    }
    Ok(())
}

#[test]
fn an_entry_begins_in_its_place(rt: HostRuntime) -> Result<(), Fail> {
    let alloc = rt.alloc();
    let mut ring = RobRing::new(alloc, &small(alloc)?)?;
    ring.push(entry(3));
    ring.push(entry(4));
    let begun = Entry {
        state: Progress::Busy(9),
        issued: Some(8),
        ..entry(4)
    };
    let issued = Issued {
        state: begun.state,
        outcome: None,
        issued: Some(8),
        addr_due: None,
        data_due: None,
    };
    ring.issue(1, &issued);
    assert_same(
        &rt,
        &[ring.head(), youngest(&ring)],
        &[Some(entry(3)), Some(begun)],
    );
    Ok(())
}

// The position of the entry with this serial, if there is one.
fn found(ring: &RobRing, serial: u64) -> Option<u32>
    requires { Rise ring.now.entries }
{
    match ring.find(serial) {
        Some(found) => Some(found.position),
        None => None,
    }
}

// A ring of two entries, with serials 3 and 7.
#[tactic(auto, using(window_model::proofs::Serials::rise_push))]
fn with_a_gap(alloc: Global) -> Result<RobRing, Fail>
    ensures rise { IfOk result (λ r. Rise r.entries) }
{
    let mut ring = RobRing::new(alloc, &small(alloc)?)?;
    ring.push(entry(3));
    ring.push(entry(7));
    Ok(ring)
}

// Serials, how many entries have smaller ones, and the position of the entry that has it.
static POSITIONS: [(u64, u32, Option<u32>); 4] = [
    (3, 0, Some(0)),
    (4, 1, None),
    (7, 1, Some(1)),
    (8, 2, None),
];

#[test]
fn serials_have_positions(rt: HostRuntime) -> Result<(), Fail> {
    let ring = with_a_gap(rt.alloc())?;
    assert!(rt; ring.len() == 2);
    assert_same(&rt, &ring.at(1), &entry(7));
    for &(serial, position, place) in &POSITIONS {
        let told = (ring.position_of(serial), found(&ring, serial));
        assert_same(&rt, &(serial, told), &(serial, (position, place)));
    }
    Ok(())
}

// An addition that executes in each seventieth place, an unresolved branch in the last, and in the others what is done.
fn one_of_many(i: u32) -> Entry {
    let serial = i as u64;
    if i == 191 {
        return entry_of(serial, Word::Branch, Progress::Done);
    }
    if i % 70 == 0 {
        return entry_of(serial, Word::Sum, Progress::Busy(9));
    }
    entry_of(serial, Word::Sum, Progress::Done)
}

// A ring, and how many entries it has room for.
#[derive(Drop)]
struct Filling {
    ring: RobRing,
    room: u32,
    ghost as_many: { ring.room ≡ room },
}

impl Filling {
    // One more comes, where there is room.
    fn push(&mut self, rt: &impl Abort, entry: Entry) {
        assert!(rt; self.ring.len() < self.room);
        self.ring.push(entry);
    }
}

// A ring of the largest description that is full.
fn full(rt: &impl Abort, alloc: Global) -> Result<RobRing, Fail> {
    let desc = largest(alloc)?;
    let mut filling = Filling {
        ring: RobRing::new(alloc, &desc)?,
        room: desc.core_rob,
    };
    for i in 0..192 {
        filling.push(rt, one_of_many(i));
    }
    Ok(filling.ring)
}

// The position from which on it is asked, and who executes from there on.
static BUSY: [(u32, Option<u32>); 4] = [(0, Some(0)), (1, Some(70)), (71, Some(140)), (141, None)];

// Those once the oldest has gone.
static BUSY_THEN: [(u32, Option<u32>); 3] = [(0, Some(69)), (70, Some(139)), (140, None)];

// Those execute, and the one at this position is the first that isn't settled or safe.
fn assert_next(rt: &impl Abort, ring: &RobRing, rows: &[(u32, Option<u32>)], open: u32) {
    for &(from, busy) in rows {
        let wanted = (busy, Some(open), Some(open));
        assert_same(rt, &(from, next(ring, from)), &(from, wanted));
    }
}

#[test]
fn the_largest_ring_has_192_entries(rt: HostRuntime) -> Result<(), Fail> {
    let mut ring = full(&rt, rt.alloc())?;
    assert_same(&rt, &ends(&ring), &(192, Some(0), Some(191)));
    assert_next(&rt, &ring, &BUSY, 191);
    go(&rt, &mut ring, Step::Pop);
    assert_next(&rt, &ring, &BUSY_THEN, 190);
    Ok(())
}
