//! The point over a branch or a store and a load behind it, under each model (`visibility`; `docs/machine.md`, "Safe
//! and visible").
ghost use Rattle.std.specs.Prelude.{◌≡◌};

use crate::asserting::assert_same;
use crate::descriptions::{small, under};
use crate::entries::{Word, entry_of, with_outcome};
use machine_desc::Desc;
use rob_ring::RobRing;
use rv_types::{Cause, NoMemory};
use std::alloc::Global;
use std::test::Fail;
use visibility::VisPoint;
use window_model::{Entry, Progress};

// A branch that is resolved or isn't, or a store that is cleared or isn't, with serial 2.
fn first(word: Word, settled: bool) -> Entry
    ensures { result.serial ≡ 2 }
{
    Entry {
        resolved: settled,
        cleared: settled,
        ..entry_of(2, word, Progress::Done)
    }
}

// A load with serial 5, with a fault or not.
fn load(state: Progress, is_faulty: bool) -> Entry
    ensures { result.serial ≡ 5 }
{
    let fault = if is_faulty {
        Some(Cause::load_outside())
    } else {
        None
    };
    with_outcome(entry_of(5, Word::Load, state), 0, 0x10008, fault)
}

// The older entry, whether it is resolved or cleared, how far the load behind it is and whether that has a fault.
type Two = (Word, bool, Progress, bool);

// Whether the first entry, the load behind it and what comes next are visible.
fn seen(alloc: Global, desc: &Desc, two: &Two) -> Result<(bool, bool, bool), NoMemory> {
    let (word, settled, state, is_faulty) = *two;
    let mut rob = RobRing::new(alloc, desc)?;
    rob.push(first(word, settled));
    rob.push(load(state, is_faulty));
    let mut point = VisPoint::new(desc);
    point.advance(&rob);
    Ok((point.visible(2), point.visible(5), point.visible(6)))
}

// Two entries; what is visible under spectre, and under futuristic.
static ROWS: [(Two, (bool, bool, bool), (bool, bool, bool)); 6] = [
    (
        (Word::Branch, false, Progress::Done, false),
        (true, false, false),
        (true, false, false),
    ),
    (
        (Word::Branch, true, Progress::Waiting, false),
        (true, true, true),
        (true, true, false),
    ),
    (
        (Word::Branch, true, Progress::Done, true),
        (true, true, true),
        (true, true, false),
    ),
    (
        (Word::Branch, true, Progress::Done, false),
        (true, true, true),
        (true, true, true),
    ),
    (
        (Word::Store, false, Progress::Done, false),
        (true, false, false),
        (true, false, false),
    ),
    (
        (Word::Store, true, Progress::Done, false),
        (true, true, true),
        (true, true, true),
    ),
];

#[test]
fn the_point_stands_at_what_keeps_younger_ones_hidden(rt: HostRuntime) -> Result<(), Fail> {
    let alloc = rt.alloc();
    let spectre = under(alloc, "spectre")?;
    let futuristic = under(alloc, "futuristic")?;
    for (two, under_spectre, under_futuristic) in &ROWS {
        let told = (seen(alloc, &spectre, two)?, seen(alloc, &futuristic, two)?);
        let settled = two.1;
        assert_same(
            &rt,
            &(settled, told),
            &(settled, (*under_spectre, *under_futuristic)),
        );
    }
    Ok(())
}

#[test]
fn before_anything_serial_0_alone_is_visible(rt: HostRuntime) -> Result<(), Fail> {
    let point = VisPoint::new(&small(rt.alloc())?);
    assert!(rt; point.visible(0) && !point.visible(1) && point.hidden_from() == 1);
    for (root, tainted) in [(None, false), (Some(0), false), (Some(1), true)] {
        assert_same(&rt, &(root, point.tainted(root)), &(root, tainted));
    }
    Ok(())
}

#[test]
fn under_off_nothing_is_hidden_up_to_the_last_serial(rt: HostRuntime) -> Result<(), Fail> {
    let point = VisPoint::new(&under(rt.alloc(), "off")?);
    assert!(rt; point.visible(u64::MAX) && point.hidden_from() == u64::MAX);
    Ok(())
}
