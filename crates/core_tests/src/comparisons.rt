//! The three lines of each answer of two runs, and a put that fails at each of them.
use crate::asserting::assert_same;
use pair_run::{Differ, PairAnswer, write_comparison};
use std::alloc::Global;
use std::test::Fail;
use tool_io::{Failed, MemFail, MemSink};

const EQUAL: PairAnswer = PairAnswer {
    premise: true,
    first: Differ::Same,
    retired: 5,
    cycles: 21,
};

const UNEQUAL: PairAnswer = PairAnswer {
    premise: false,
    first: Differ::Cycle(17),
    retired: 9,
    cycles: 28,
};

const AT_END: PairAnswer = PairAnswer {
    premise: false,
    first: Differ::End,
    retired: 0,
    cycles: 1,
};

const LARGEST: PairAnswer = PairAnswer {
    premise: false,
    first: Differ::Cycle(4_294_967_295),
    retired: 18_446_744_073_709_551_615,
    cycles: 4_294_967_295,
};

// An answer, the put that fails after two bytes, or 0, what is answered, and the text that is there.
const ROWS: [(PairAnswer, u64, Result<(), Failed>, &str); 7] = [
    (
        EQUAL,
        0,
        Ok(()),
        "premise yes\nequal\nretired 5 cycles 21\n",
    ),
    (
        UNEQUAL,
        0,
        Ok(()),
        "premise no\nunequal 17\nretired 9 cycles 28\n",
    ),
    (
        AT_END,
        0,
        Ok(()),
        "premise no\nunequal end\nretired 0 cycles 1\n",
    ),
    (
        LARGEST,
        0,
        Ok(()),
        "premise no\nunequal 4294967295\nretired 18446744073709551615 cycles 4294967295\n",
    ),
    (EQUAL, 1, Err(Failed), "pr"),
    (EQUAL, 2, Err(Failed), "premise yes\neq"),
    (EQUAL, 3, Err(Failed), "premise yes\nequal\nre"),
];

// A sink, with the number of a put that is to fail, 0 for none, and two of its bytes go out before.
fn sink_of(alloc: Global, call: u64) -> Result<MemSink, Fail> {
    let mut fails = Vec::new(alloc);
    fails.push(MemFail { call, sent: 2 })?;
    Ok(MemSink::new(alloc, 128, fails)?)
}

#[test]
fn comparisons(rt: HostRuntime) -> Result<(), Fail> {
    for (told, put, wanted, text) in &ROWS {
        let mut out = sink_of(rt.alloc(), *put)?;
        assert_same(&rt, &write_comparison(told, &mut out), wanted);
        assert_same(&rt, &out.as_slice(), &text.as_bytes());
    }
    Ok(())
}
