//! Bits of dependence, sixteen and 1,024 (`dep_pred`; `docs/machine.md`, "Clear").
ghost use Rattle.std.specs.Prelude.{◌<◌, length};

use crate::asserting::assert_same;
use crate::descriptions::{example, largest, small};
use dep_pred::DepPred;
use std::test::Fail;
use window_model::Event;

// Two loads that share a bit, and one with another.
const LOAD: u32 = 0x1000c;

const SAME_BIT: u32 = 0x1004c;

const OTHER: u32 = 0x10010;

// Which of them wait.
fn waiting(bits: &DepPred) -> [bool; 3]
    requires { 0 < length bits.now }
{
    [bits.waits(LOAD), bits.waits(SAME_BIT), bits.waits(OTHER)]
}

#[test]
fn a_bit_is_set_for_good(rt: HostRuntime) -> Result<(), Fail> {
    let alloc = rt.alloc();
    let desc = small(alloc)?;
    assert!(rt; desc.predictor_depend == 16);
    let mut bits = DepPred::new(alloc, &desc)?;
    assert_same(&rt, &waiting(&bits), &[false; 3]);
    assert_same(&rt, &bits.learn(LOAD), &Event::Dp(3, 1));
    assert_same(&rt, &waiting(&bits), &[true, true, false]);
    assert_same(&rt, &bits.learn(SAME_BIT), &Event::Dp(3, 1));
    assert_same(&rt, &waiting(&bits), &[true, true, false]);
    assert_same(&rt, &bits.learn(OTHER), &Event::Dp(4, 1));
    assert_same(&rt, &waiting(&bits), &[true; 3]);
    Ok(())
}

#[test]
fn there_may_be_none_and_1024(rt: HostRuntime) -> Result<(), Fail> {
    let alloc = rt.alloc();
    let _none = DepPred::new(alloc, &example(alloc)?)?;
    let desc = largest(alloc)?;
    assert!(rt; desc.predictor_depend == 1024);
    let mut bits = DepPred::new(alloc, &desc)?;
    assert_same(&rt, &bits.learn(0x10ffc), &Event::Dp(1023, 1));
    Ok(())
}
