//! One row, begun twice (`window_model`).
use crate::asserting::assert_same;
use std::process::Abort;
use std::test::Fail;
use window_model::{Event, Row, empty_row};

// The row has this number and these events.
fn assert_row(rt: &impl Abort, row: &Row, cycle: u32, events: &[Event]) {
    assert_same(rt, &row.cycle(), &cycle);
    assert_same(rt, &row.events(), &events);
}

#[test]
fn a_row_keeps_its_events_in_order(rt: HostRuntime) -> Result<(), Fail> {
    let mut row = empty_row();
    assert_row(&rt, &row, 0, &[]);
    row.begin(7);
    row.push(Event::Done(3));
    row.push(Event::Ret(3));
    assert_row(&rt, &row, 7, &[Event::Done(3), Event::Ret(3)]);
    row.begin(8);
    assert_row(&rt, &row, 8, &[]);
    Ok(())
}
