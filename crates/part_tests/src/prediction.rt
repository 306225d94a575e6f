//! Counters and targets, step by step (`predictor`).
use crate::asserting::assert_same;
use crate::descriptions::{largest, small};
use predictor::Predictor;
use std::test::Fail;
use window_model::Event;

// How a branch goes, its counter then, and what is predicted.
static WAYS: [(bool, u8, bool); 9] = [
    (true, 2, true),
    (true, 3, true),
    (true, 3, true),
    (false, 2, true),
    (false, 1, false),
    (false, 0, false),
    (false, 0, false),
    (true, 1, false),
    (true, 2, true),
];

// The place of its counter.
const BRANCH: u32 = 1;

#[test]
fn a_counter_moves_between_0_and_3(rt: HostRuntime) -> Result<(), Fail> {
    let alloc = rt.alloc();
    let mut predictor = Predictor::new(alloc, &small(alloc)?)?;
    for &(taken, counter, predicted) in &WAYS {
        let event = predictor.learn_branch(BRANCH, taken);
        let learnt = event == Event::Bp(BRANCH, counter);
        let told = [predictor.direction(BRANCH), predictor.direction(0)];
        assert_same(
            &rt,
            &(counter, learnt, told),
            &(counter, true, [predicted, false]),
        );
    }
    Ok(())
}

// Two JALRs at one place.
const JUMP: u32 = 0x1000c;

const SAME_PLACE: u32 = 0x1001c;

// Where a JALR went, and what is predicted of the two then.
static JUMPS: [(u32, u32, (Option<u32>, Option<u32>)); 2] = [
    (JUMP, 0x20000, (Some(0x20000), None)),
    (SAME_PLACE, 0x30000, (None, Some(0x30000))),
];

#[test]
fn a_target_is_for_its_own_address(rt: HostRuntime) -> Result<(), Fail> {
    let alloc = rt.alloc();
    let mut predictor = Predictor::new(alloc, &small(alloc)?)?;
    assert!(rt; predictor.target(JUMP).is_none());
    for &(pc, target, want) in &JUMPS {
        let event = predictor.learn_target(pc, target);
        let told = (predictor.target(JUMP), predictor.target(SAME_PLACE));
        assert_same(&rt, &(event, told), &(Event::Bt(3, target), want));
    }
    Ok(())
}

#[test]
fn the_largest_has_4096_counters_and_256_targets(rt: HostRuntime) -> Result<(), Fail> {
    let alloc = rt.alloc();
    let desc = largest(alloc)?;
    assert!(rt; desc.predictor_counters == 4096);
    let mut predictor = Predictor::new(alloc, &desc)?;
    let events = [
        predictor.learn_branch(4095, true),
        predictor.learn_target(0x103fc, 16),
    ];
    assert_same(&rt, &events, &[Event::Bp(4095, 2), Event::Bt(255, 16)]);
    Ok(())
}
