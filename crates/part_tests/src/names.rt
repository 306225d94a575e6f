//! Both tables of names over the same calls (`rename_taint`; `docs/machine.md`, "Writers and roots").
ghost use Rattle.std.specs.Prelude.{◌≡◌};

use crate::asserting::assert_same;
use crate::descriptions::{largest, small};
use machine_desc::Desc;
use rename_taint::{ByScan, ByTable, RenameTaint, Source, root_written, roots_of};
use rv_types::{Instr, Kind, NoMemory, Op, Reg};
use std::alloc::Global;
use std::process::Abort;
use std::test::Fail;

fn x5() -> Reg
    ensures { result.number ≡ 5 }
{
    Reg { number: 5 }
}

fn x6() -> Reg
    ensures { result.number ≡ 6 }
{
    Reg { number: 6 }
}

// The serial of the entry that a value stands with, None for a retired value.
fn serial_in(source: Source) -> Option<u64> {
    match source {
        Source::Committed => None,
        Source::Entry(serial) => Some(serial),
    }
}

// The writer and the root of x5, and the roots of a store of x5 to the address in x6.
fn asked<R: RenameTaint>(table: &R) -> [Option<u64>; 4] {
    let store = Instr::Store {
        op: Op::Sw,
        rs1: x6(),
        rs2: x5(),
        imm: 0,
    };
    let [address, stored] = roots_of(table, &store);
    [
        serial_in(table.source(x5())),
        table.root(x5()),
        address,
        stored,
    ]
}

// What is answered after writes, after a squash, and after retirements.
fn answers<R: RenameTaint + Drop>(
    alloc: Global,
    desc: &Desc,
) -> Result<[[Option<u64>; 4]; 6], NoMemory> {
    let mut table = R::new(alloc, desc)?;
    let none = asked(&table);
    table.write(x5(), 1, None);
    table.write(x6(), 3, Some(3));
    table.write(x5(), 4, Some(3));
    let written = asked(&table);
    table.cut_back(4);
    let squashed = asked(&table);
    table.write(x5(), 6, Some(2));
    table.retired(2);
    let rewritten = asked(&table);
    table.retired(3);
    let retired = asked(&table);
    table.cut_back(5);
    let emptied = asked(&table);
    Ok([none, written, squashed, rewritten, retired, emptied])
}

// Both tables of a description answer as was worked out.
fn answer_alike(rt: &impl Abort, alloc: Global, desc: &Desc) -> Result<(), Fail> {
    let expected = [
        [None, None, None, None],
        [Some(4), Some(3), Some(3), Some(3)],
        [Some(1), None, Some(3), None],
        [Some(6), Some(2), Some(3), Some(2)],
        [Some(6), Some(2), None, Some(2)],
        [None, None, None, None],
    ];
    assert_same(rt, &answers::<ByScan>(alloc, desc)?, &expected);
    assert_same(rt, &answers::<ByTable>(alloc, desc)?, &expected);
    Ok(())
}

#[test]
fn both_tables_answer_alike(rt: HostRuntime) -> Result<(), Fail> {
    let alloc = rt.alloc();
    answer_alike(&rt, alloc, &small(alloc)?)?;
    answer_alike(&rt, alloc, &largest(alloc)?)
}

#[test]
fn a_load_is_its_own_root(rt: HostRuntime) -> Result<(), Fail> {
    let rows: [(Kind, [Option<u64>; 2], Option<u64>); 6] = [
        (Kind::Load, [None, None], Some(9)),
        (Kind::Load, [Some(3), None], Some(9)),
        (Kind::Alu, [None, None], None),
        (Kind::Alu, [None, Some(3)], Some(3)),
        (Kind::Div, [Some(7), Some(3)], Some(7)),
        (Kind::Jalr, [Some(7), None], Some(7)),
    ];
    for (kind, roots, want) in rows {
        assert_same(
            &rt,
            &(kind, roots, root_written(kind, 9, roots)),
            &(kind, roots, want),
        );
    }
    Ok(())
}
