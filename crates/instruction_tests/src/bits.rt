//! Bits of words of 64 and of 128 bits: set, cleared, found.
use crate::asserting::assert_same;
use word_bits::{has_bit, has_wide_bit, next_bit, next_wide_bit, with_bit, with_wide_bit};

// A place from which a bit is sought, and the first one from there on of a word with bits 5, 9 and 63.
static NEXT: [(u32, Option<u32>); 4] = [(0, Some(5)), (5, Some(5)), (6, Some(9)), (10, Some(63))];

// The first one of a wide word with bits 5, 70 and 127.
static NEXT_WIDE: [(u32, Option<u32>); 5] = [
    (0, Some(5)),
    (5, Some(5)),
    (6, Some(70)),
    (64, Some(70)),
    (71, Some(127)),
];

#[test]
fn bits_are_set_cleared_and_found(rt: HostRuntime) {
    let word = with_bit(with_bit(with_bit(0, 5, true), 63, true), 9, true);
    for &(from, wanted) in &NEXT {
        assert_same(&rt, &(from, next_bit(word, from)), &(from, wanted));
    }
    let rest = with_bit(with_bit(word, 63, false), 7, false);
    assert_same(
        &rt,
        &(next_bit(rest, 6), next_bit(rest, 10)),
        &(Some(9), None),
    );
    assert_same(&rt, &(has_bit(word, 62), has_bit(word, 63)), &(false, true));
}

#[test]
fn wide_bits_are_set_cleared_and_found(rt: HostRuntime) {
    let two = with_wide_bit(with_wide_bit(0, 5, true), 127, true);
    let word = with_wide_bit(two, 70, true);
    for &(from, wanted) in &NEXT_WIDE {
        assert_same(&rt, &(from, next_wide_bit(word, from)), &(from, wanted));
    }
    let rest = with_wide_bit(with_wide_bit(word, 127, false), 7, false);
    assert_same(
        &rt,
        &(next_wide_bit(rest, 6), next_wide_bit(rest, 71)),
        &(Some(70), None),
    );
    assert_same(
        &rt,
        &(has_wide_bit(word, 6), has_wide_bit(word, 70)),
        &(false, true),
    );
}
