//! Branches and JALRs over a reorder buffer of two entries, with serial 0 alone visible (`branch_resolve`;
//! `docs/machine.md`, "Resolve").
ghost use Rattle.std.specs.Prelude.{◌≡◌, length, IfOk};

use crate::asserting::assert_same;
use crate::descriptions::small;
use crate::entries::{Word, entry_of, with_outcome};
use branch_resolve::{Resolution, pick, resolve};
use circular_buffer::HeapCircularBuffer;
use history_pred::History;
use machine_desc::Desc;
use predictor::Predictor;
use rob_ring::{RobRing, Sources};
use rv_types::Cause;
use std::alloc::Global;
use std::test::Fail;
use visibility::VisPoint;
use window_model::{Entry, Event, Progress, Row, Way, empty_row};

// Sources with these youngest roots, written by what isn't visible.
fn with_roots(roots: (Option<u64>, Option<u64>)) -> Sources {
    Sources {
        roots: [roots.0, roots.1],
        writers: [Some(9), Some(9)],
    }
}

// A branch or JALR that is Done, with this serial.
fn done(serial: u64, word: Word) -> Entry {
    with_outcome(entry_of(serial, word, Progress::Done), 1, 0x10014, None)
}

// The older entry, with serial 3.
#[derive(Clone, Copy, Debug, PartialEq, Eq)]
enum Older {
    Branch,
    Resolved,
    Executing,
    Store,
    Sum,
}

// A branch, one that is resolved, one that executes, a store that isn't cleared, or an addition.
fn older_entry(older: Older) -> Entry {
    let branch = done(3, Word::Branch);
    match older {
        Older::Branch => branch,
        Older::Resolved => Entry {
            resolved: true,
            ..branch
        },
        Older::Executing => Entry {
            state: Progress::Busy(9),
            ..branch
        },
        Older::Store => Entry {
            cleared: false,
            ..done(3, Word::Store)
        },
        Older::Sum => done(3, Word::Sum),
    }
}

// The youngest roots of an entry's sources.
type Roots = (Option<u64>, Option<u64>);

// The older entry and its roots; whether the younger one, a JALR, is resolved, and its roots.
type Two = (Older, Roots, bool, Roots);

// A window of two.
fn window(alloc: Global, desc: &Desc, two: &Two) -> Result<RobRing, Fail>
    ensures { IfOk result (λ w. length w.entries ≡ 2) }
{
    let younger = Entry {
        resolved: two.2,
        ..done(5, Word::Jump)
    };
    let mut ring = RobRing::new(alloc, desc)?;
    ring.push(older_entry(two.0));
    ring.push(younger);
    Ok(ring)
}

// The position that is picked of two.
fn picked(alloc: Global, desc: &Desc, two: &Two) -> Result<Option<u32>, Fail> {
    let ring = window(alloc, desc, two)?;
    let mut sources = HeapCircularBuffer::with_capacity(alloc, 2)?;
    let _ = sources.try_push_back(with_roots(two.1));
    let _ = sources.try_push_back(with_roots(two.3));
    Ok(pick(&ring, &VisPoint::new(desc), &sources, desc))
}

const NONE: Roots = (None, None);

const VISIBLE: Roots = (None, Some(0));

const HIDDEN: Roots = (None, Some(7));

const FIRST_VISIBLE: Roots = (Some(0), None);

const FIRST_HIDDEN: Roots = (Some(7), None);

// Two entries, and which is picked.
static PICKED: [(Two, Option<u32>); 8] = [
    ((Older::Branch, VISIBLE, false, FIRST_VISIBLE), Some(0)),
    ((Older::Branch, HIDDEN, false, FIRST_VISIBLE), Some(1)),
    ((Older::Branch, HIDDEN, false, FIRST_HIDDEN), None),
    ((Older::Resolved, NONE, false, FIRST_VISIBLE), Some(1)),
    ((Older::Resolved, NONE, false, FIRST_HIDDEN), None),
    ((Older::Executing, NONE, false, NONE), Some(1)),
    ((Older::Store, NONE, false, NONE), Some(1)),
    ((Older::Sum, NONE, true, NONE), None),
];

#[test]
fn the_oldest_without_a_tainted_operand_is_picked(rt: HostRuntime) -> Result<(), Fail> {
    let alloc = rt.alloc();
    let desc = small(alloc)?;
    for (two, want) in &PICKED {
        assert_same(&rt, &(*two, picked(alloc, &desc, two)?), &(*two, *want));
    }
    Ok(())
}

// The event at a place of the row, if there are so many.
fn event_at(row: &Row, place: usize) -> Option<Event> {
    row.events().get(place).copied()
}

// A branch or JALR with serial 3 that has come to this value and next address, with a fault or not.
fn ended(word: Word, value: u32, next: u32, is_faulty: bool) -> Entry {
    let fault = if is_faulty {
        Some(Cause::jump_misaligned())
    } else {
        None
    };
    with_outcome(entry_of(3, word, Progress::Done), value, next, fault)
}

// What is told of an entry that is resolved, by a predictor that has learnt nothing yet: how it is resolved, the events
// besides the first, and the target that is learnt.
type Told = (
    Resolution,
    (Option<Event>, Option<Event>, Option<Event>),
    Option<u32>,
);

fn told(alloc: Global, desc: &Desc, entry: &Entry) -> Result<Told, Fail> {
    let mut predictor = Predictor::new(alloc, desc)?;
    let mut row = empty_row();
    let resolved = resolve(entry, &History::new(desc), &mut predictor, &mut row);
    let events = (event_at(&row, 0), event_at(&row, 1), event_at(&row, 2));
    Ok((resolved, events, predictor.target(0x10004)))
}

// What is resolved, its value, its next address, and whether it has a fault; how it is resolved, the event that tells
// it, what the predictor tells, and the target that it has learnt.
type Resolved = (
    Word,
    u32,
    u32,
    bool,
    Resolution,
    Way,
    Option<Event>,
    Option<u32>,
);

static RESOLVED: [Resolved; 5] = [
    (
        Word::Branch,
        0,
        0x10008,
        false,
        Resolution::Right,
        Way::NotTaken,
        Some(Event::Bp(1, 0)),
        None,
    ),
    (
        Word::Branch,
        1,
        0x10014,
        false,
        Resolution::Wrong(0x10014),
        Way::Taken,
        Some(Event::Bp(1, 2)),
        None,
    ),
    (
        Word::Branch,
        1,
        0x10016,
        true,
        Resolution::Fault,
        Way::Taken,
        Some(Event::Bp(1, 2)),
        None,
    ),
    (
        Word::Jump,
        0x10008,
        0x20000,
        false,
        Resolution::Wrong(0x20000),
        Way::Jump,
        Some(Event::Bt(1, 0x20000)),
        Some(0x20000),
    ),
    (
        Word::Jump,
        0x10008,
        0x20002,
        true,
        Resolution::Fault,
        Way::Jump,
        None,
        None,
    ),
];

#[test]
fn what_is_resolved_teaches_and_tells(rt: HostRuntime) -> Result<(), Fail> {
    let alloc = rt.alloc();
    let desc = small(alloc)?;
    for &(word, value, next, is_faulty, resolution, way, taught, target) in &RESOLVED {
        let told = told(alloc, &desc, &ended(word, value, next, is_faulty))?;
        let events = (Some(Event::Res(3, way)), taught, None);
        assert_same(&rt, &(next, told), &(next, (resolution, events, target)));
    }
    Ok(())
}
