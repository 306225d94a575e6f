//! Registers that are taken, asked for and freed (`mshr_file`; `docs/machine.md`, "Fill" and "Loads").
use crate::asserting::assert_same;
use crate::descriptions::{largest, small};
use mshr_file::Mshrs;
use std::test::Fail;

// Whether a register was free, which is then taken.
fn taken(mshrs: &mut Mshrs, line: u32, due: u64, from_memory: bool) -> bool {
    if mshrs.full() {
        return false;
    }
    mshrs.take(line, due, from_memory);
    true
}

// When each of three lines comes.
type Dues = (Option<u64>, Option<u64>, Option<u64>);

fn dues_of(mshrs: &Mshrs) -> Dues {
    (mshrs.find(65568), mshrs.find(65536), mshrs.find(65552))
}

// A line, whether it is from memory, whether it gets a register, and how many are free then.
static TAKEN: [(u32, bool, bool, u32); 3] = [
    (65568, true, true, 1),
    (65536, false, true, 0),
    (65552, true, false, 0),
];

// The cycle that is asked about, what comes in it; and when each of three lines comes then.
static DUE: [(u64, Option<(u32, bool)>, Dues); 4] = [
    (11, None, (Some(12), Some(12), None)),
    (12, Some((65568, true)), (None, Some(12), None)),
    (12, Some((65536, false)), (None, None, None)),
    (12, None, (None, None, None)),
];

#[test]
fn two_lines_arrive_in_the_order_of_taking(rt: HostRuntime) -> Result<(), Fail> {
    let alloc = rt.alloc();
    let mut mshrs = Mshrs::new(alloc, &small(alloc)?)?;
    for &(line, from_memory, is_taken, free) in &TAKEN {
        let told = (taken(&mut mshrs, line, 12, from_memory), mshrs.free());
        assert_same(&rt, &(line, told), &(line, (is_taken, free)));
    }
    for &(cycle, want, dues) in &DUE {
        let told = (mshrs.due(cycle), dues_of(&mshrs));
        assert_same(&rt, &told, &(want, dues));
    }
    assert!(rt; mshrs.len() == 0 && mshrs.misses().is_empty());
    Ok(())
}

#[test]
fn eight_lines_may_be_under_way(rt: HostRuntime) -> Result<(), Fail> {
    let alloc = rt.alloc();
    let mut mshrs = Mshrs::new(alloc, &largest(alloc)?)?;
    for line in 0..8 {
        assert!(rt; taken(&mut mshrs, line, 9, true));
    }
    assert!(rt; mshrs.full() && mshrs.len() == 8);
    for line in 0..8 {
        assert_same(&rt, &mshrs.due(9), &Some((line, true)));
    }
    Ok(())
}
