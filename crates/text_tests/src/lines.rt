//! The last line in each of its forms, and the numbers of a line and of a draft.
use crate::asserting::assert_same;
use crate::sinks::sink_of;
use line_text::{Draft, Line, write_end};
use rv_types::{Cause, End, Ending};
use std::test::Fail;

const TRAP: End = End::Trap(Cause { number: 1 }, 0x0001_0000);

// How a run ended, if it did, how many retired, in how many cycles, if they are counted, and the line.
const ENDS: [(Option<End>, u64, Option<u32>, &str); 6] = [
    (
        Some(End::Exit(0)),
        2,
        Some(5),
        "end exit 0 retired 2 cycles 5\n",
    ),
    (
        Some(End::Exit(4294967282)),
        11,
        None,
        "end exit 4294967282 retired 11\n",
    ),
    (
        Some(TRAP),
        0,
        Some(3),
        "end trap 1 00010000 retired 0 cycles 3\n",
    ),
    (Some(TRAP), 0, None, "end trap 1 00010000 retired 0\n"),
    (None, 1, Some(4), "end budget retired 1 cycles 4\n"),
    (None, 1, None, "end budget retired 1\n"),
];

#[test]
fn last_lines(rt: HostRuntime) -> Result<(), Fail> {
    let alloc = rt.alloc();
    for &(end, retired, cycles, wanted) in &ENDS {
        let ending = Ending {
            end,
            retired,
            cycles,
        };
        let mut out = sink_of(alloc, 100, 0)?;
        assert_same(&rt, &write_end(&ending, &mut out), &Ok(()));
        assert_same(&rt, &out.as_slice(), &wanted.as_bytes());
    }
    Ok(())
}

// Numbers of each length, in decimal.
const DECIMALS: [(u64, &str); 18] = [
    (0, "0"),
    (9, "9"),
    (10, "10"),
    (99, "99"),
    (100, "100"),
    (9_999, "9999"),
    (10_000, "10000"),
    (12_345, "12345"),
    (99_999, "99999"),
    (100_000, "100000"),
    (678_901, "678901"),
    (999_999, "999999"),
    (1_000_000, "1000000"),
    (2_345_678, "2345678"),
    (99_999_999, "99999999"),
    (100_000_000, "100000000"),
    (123_456_789, "123456789"),
    (u64::MAX, "18446744073709551615"),
];

#[test]
fn numbers_of_a_line(rt: HostRuntime) {
    let mut line = Line::new();
    for &(number, wanted) in &DECIMALS {
        line.clear();
        line.add_decimal(number);
        assert_same(&rt, &line.as_slice(), &wanted.as_bytes());
    }
    line.clear();
    line.add(b"mem ");
    line.add_hex8(0xfedc_ba98);
    line.add_hex2(0x0f);
    line.add_hex_bytes(&[0x76, 0x54, 0x32, 0x10]);
    line.add_decimal_word(u32::MAX);
    let wanted = "mem fedcba980f765432104294967295";
    assert_same(&rt, &line.as_slice(), &wanted.as_bytes());
}

#[test]
fn a_text_from_a_place_on(rt: HostRuntime) {
    let mut draft = Draft::new();
    let name = draft.put(0, *b"7 ren:");
    let serial = draft.put_decimal(name, 98_765_432_109);
    let pc = draft.put_hex8(serial, 0x0001_fff0);
    assert_same(
        &rt,
        &draft.before(pc),
        &b"7 ren:987654321090001fff0".as_slice(),
    );
    let count = draft.put_decimal_word(serial, 40_123);
    assert_same(
        &rt,
        &draft.before(count),
        &b"7 ren:9876543210940123".as_slice(),
    );
}
