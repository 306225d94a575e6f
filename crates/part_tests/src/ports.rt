//! Ports of two cycles, and a divider that is used, freed and used again (`unit_ports`; `docs/machine.md`, "Issue" and
//! "Resolve").
use crate::asserting::assert_same;
use crate::descriptions::{largest, small};
use rv_types::Kind;
use std::test::Fail;
use unit_ports::Ports;
use window_model::Divider;

#[test]
fn two_units_and_one_of_each_other_port(rt: HostRuntime) -> Result<(), Fail> {
    let mut ports = Ports::new(&small(rt.alloc())?);
    // A JAL and a branch take the two arithmetic units; JALR and arithmetic then find none.
    let rows: [(Kind, bool); 11] = [
        (Kind::Jal, true),
        (Kind::Load, true),
        (Kind::Branch, true),
        (Kind::Jalr, false),
        (Kind::Mul, true),
        (Kind::Alu, false),
        (Kind::Store, true),
        (Kind::Div, true),
        (Kind::Load, false),
        (Kind::Mul, false),
        (Kind::Store, false),
    ];
    for cycle in 1..3 {
        ports.begin(cycle);
        for &(kind, granted) in &rows {
            let told = [ports.has(kind), ports.grant(kind)];
            assert_same(&rt, &(cycle, kind, told), &(cycle, kind, [granted; 2]));
        }
        // The port of a store's data part is another one than that of its address part.
        for granted in [true, false] {
            let told = [ports.has_data(), ports.grant_data()];
            assert_same(&rt, &(cycle, told), &(cycle, [granted; 2]));
        }
    }
    Ok(())
}

#[test]
fn a_stores_data_part_may_go_first(rt: HostRuntime) -> Result<(), Fail> {
    let mut ports = Ports::new(&small(rt.alloc())?);
    let told = [ports.grant_data(), ports.grant(Kind::Store)];
    assert_same(&rt, &told, &[true; 2]);
    Ok(())
}

#[test]
fn four_units_are_the_most(rt: HostRuntime) -> Result<(), Fail> {
    let mut ports = Ports::new(&largest(rt.alloc())?);
    for granted in [true, true, true, true, false] {
        assert_same(&rt, &ports.grant(Kind::Alu), &granted);
    }
    Ok(())
}

// A cycle begins; a division of this serial uses the divider until then; entries from a serial on are dropped.
#[derive(Clone, Copy)]
enum Step {
    Begin(u64),
    Divide(u64, u64),
    Drop(u64),
}

fn go(ports: &mut Ports, step: Step) {
    match step {
        Step::Begin(cycle) => ports.begin(cycle),
        Step::Divide(until, serial) => ports.divide(until, serial),
        Step::Drop(serial) => ports.drop_from(serial),
    }
}

// Steps, whether the divider is free then, from when on, and who used it last.
static STEPS: [(Step, bool, u64, Option<u64>); 7] = [
    (Step::Begin(4), true, 0, None),
    (Step::Divide(9, 12), false, 9, Some(12)),
    (Step::Drop(13), false, 9, Some(12)),
    (Step::Begin(8), false, 9, Some(12)),
    (Step::Begin(9), true, 9, Some(12)),
    (Step::Divide(30, 14), false, 30, Some(14)),
    (Step::Drop(14), true, 0, None),
];

#[test]
fn the_divider_is_used_and_freed(rt: HostRuntime) -> Result<(), Fail> {
    let mut ports = Ports::new(&small(rt.alloc())?);
    for &(step, free, free_from, user) in &STEPS {
        go(&mut ports, step);
        let told = ports.divider() == Divider { free_from, user };
        assert_same(
            &rt,
            &(free_from, told, ports.free_div()),
            &(free_from, true, free),
        );
    }
    Ok(())
}
