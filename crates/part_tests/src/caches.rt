//! Both levels of the cache, step by step (`cache_tags`, `second_level`).
use crate::asserting::assert_same;
use crate::descriptions::{example, largest, small};
use cache_tags::Tags;
use second_level::Second;
use std::test::Fail;

// Three lines of one set of the first level, and one of the other.
const A: u32 = 0x10000;

const B: u32 = 0x10020;

const C: u32 = 0x10040;

const OTHER: u32 = 0x10010;

// What is done with a line.
#[derive(Clone, Copy)]
enum Step {
    Fill(u32),
    Use(u32),
}

// The step is done; whether the first level had the line that is used.
fn done(tags: &mut Tags, step: Step) -> bool {
    match step {
        Step::Fill(line) => {
            tags.fill(line);
            true
        }
        Step::Use(line) => tags.touch(line),
    }
}

#[test]
fn the_line_used_longest_ago_goes(rt: HostRuntime) -> Result<(), Fail> {
    let alloc = rt.alloc();
    let mut tags = Tags::new(alloc, &small(alloc)?)?;
    // Steps with their answers, and which of the lines are there then.
    let rows = [
        (Step::Use(A), false, [false, false, false, false]),
        (Step::Fill(A), true, [true, false, false, false]),
        (Step::Fill(B), true, [true, true, false, false]),
        (Step::Fill(OTHER), true, [true, true, false, true]),
        (Step::Use(A), true, [true, true, false, true]),
        (Step::Use(C), false, [true, true, false, true]),
        (Step::Fill(C), true, [true, false, true, true]),
        (Step::Fill(B), true, [false, true, true, true]),
    ];
    for (step, answer, there) in rows {
        let answered = done(&mut tags, step) == answer;
        let held = [
            tags.holds(A),
            tags.holds(B),
            tags.holds(C),
            tags.holds(OTHER),
        ];
        assert_same(&rt, &(answered, held), &(true, there));
    }
    Ok(())
}

// What arrives, what is then looked up, whether it is there, and which of three lines are then held.
static LOOKS: [(u32, u32, bool, [bool; 3]); 4] = [
    (0, 0, true, [true, false, false]),
    (16, 0, true, [true, true, false]),
    (32, 16, false, [true, false, true]),
    (16, 0, false, [false, true, true]),
];

#[test]
fn the_second_level_drops_alike(rt: HostRuntime) -> Result<(), Fail> {
    let alloc = rt.alloc();
    let mut second = Second::new(alloc, &small(alloc)?)?;
    for &(line, looked, answer, there) in &LOOKS {
        second.fill(line);
        let answered = second.look(looked) == answer;
        let held = [second.holds(0), second.holds(16), second.holds(32)];
        assert_same(&rt, &(answered, held), &(true, there));
    }
    Ok(())
}

#[test]
fn without_sets_the_second_level_has_no_line(rt: HostRuntime) -> Result<(), Fail> {
    let alloc = rt.alloc();
    let mut second = Second::new(alloc, &example(alloc)?)?;
    second.fill(16);
    assert!(rt; !second.holds(16) && !second.look(16));
    Ok(())
}

// The first level has 256 sets of eight lines of 64 bytes, the second 1,024: nine lines come into the last set of each.
#[test]
fn the_largest_levels_keep_eight_lines_of_a_set(rt: HostRuntime) -> Result<(), Fail> {
    let alloc = rt.alloc();
    let desc = largest(alloc)?;
    let mut tags = Tags::new(alloc, &desc)?;
    let mut second = Second::new(alloc, &desc)?;
    for turn in 0..9u32 {
        tags.fill(turn * 0x4000 + 0x3fc0);
        second.fill(turn * 0x10000 + 0xffc0);
    }
    for turn in 0..9u32 {
        let held = [
            tags.holds(turn * 0x4000 + 0x3fc0),
            second.holds(turn * 0x10000 + 0xffc0),
        ];
        assert_same(&rt, &(turn, held), &(turn, [turn > 0; 2]));
    }
    Ok(())
}
