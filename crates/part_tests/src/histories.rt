//! History and return stack, step by step, with three directions and two addresses, and with twelve and sixteen
//! (`history_pred`).
use crate::asserting::assert_same;
use crate::descriptions::{largest, small};
use history_pred::History;
use rv_types::{Instr, Kind, Reg};
use std::test::Fail;
use window_model::{Checkpoint, Item};

// A JALR that writes one register and goes by another.
fn jump(rd: u8, rs1: u8) -> Instr {
    Instr::Jalr {
        rd: Reg { number: rd % 32 },
        rs1: Reg { number: rs1 % 32 },
        imm: 0,
    }
}

// An item that was fetched from the address 0x10000.
fn item(kind: Kind, instr: Instr) -> Item {
    Item {
        pc: 0x10000,
        instr,
        kind,
        predicted: None,
        checkpoint: Checkpoint::default(),
    }
}

#[test]
fn the_history_keeps_three_directions(rt: HostRuntime) -> Result<(), Fail> {
    let mut history = History::new(&small(rt.alloc())?);
    // How a branch goes, and the history then.
    let rows = [
        (true, 1),
        (false, 2),
        (true, 5),
        (true, 3),
        (true, 7),
        (false, 6),
    ];
    for (taken, want) in rows {
        history.shift(taken);
        assert_same(&rt, &history.checkpoint().history, &want);
    }
    // The word's number is 0x4001, and the counters are sixteen.
    let places = [
        history.index(history.checkpoint(), 0x10004),
        history.index(&Checkpoint::default(), 0x10004),
    ];
    assert_same(&rt, &places, &[7, 1]);
    Ok(())
}

#[test]
fn the_stack_drops_its_oldest(rt: HostRuntime) -> Result<(), Fail> {
    let mut history = History::new(&small(rt.alloc())?);
    history.push(0x100);
    history.push(0x200);
    let before = *history.checkpoint();
    history.push(0x300);
    for want in [Some(0x300), Some(0x200), None] {
        assert_same(&rt, &history.pop(), &want);
    }
    history.restore(&before);
    for want in [Some(0x200), Some(0x100), None] {
        assert_same(&rt, &history.pop(), &want);
    }
    Ok(())
}

#[test]
fn items_are_followed(rt: HostRuntime) -> Result<(), Fail> {
    let mut history = History::new(&small(rt.alloc())?);
    // What is followed; where a return then goes to, and how many addresses and directions there are.
    let rows = [
        (Kind::Jalr, jump(5, 1), None, 0, 0),
        (Kind::Jalr, jump(1, 5), Some(0x10004), 1, 0),
        (Kind::Jalr, jump(0, 5), Some(0x10004), 1, 0),
        (Kind::Jalr, jump(0, 1), None, 0, 0),
        (Kind::Jalr, jump(1, 1), Some(0x10004), 1, 0),
        (Kind::Branch, jump(0, 1), Some(0x10004), 1, 1),
        (Kind::Alu, jump(0, 1), Some(0x10004), 1, 1),
    ];
    for (kind, instr, want, depth, directions) in rows {
        history.follow(&item(kind, instr), true);
        let told = [
            history.returns_to(&jump(0, 1)),
            history.returns_to(&jump(1, 1)),
        ];
        let checkpoint = history.checkpoint();
        let as_many = checkpoint.depth == depth && checkpoint.history == directions;
        assert_same(&rt, &(&instr, as_many, told), &(&instr, true, [want, None]));
    }
    Ok(())
}

#[test]
fn the_largest_keeps_twelve_directions_and_sixteen_addresses(rt: HostRuntime) -> Result<(), Fail> {
    let mut history = History::new(&largest(rt.alloc())?);
    for addr in 0..17 {
        history.shift(true);
        history.push(addr);
    }
    assert_same(&rt, &history.checkpoint().history, &0xfff);
    for addr in 0..16 {
        assert_same(&rt, &history.pop(), &Some(16 - addr));
    }
    assert!(rt; history.pop().is_none());
    Ok(())
}
