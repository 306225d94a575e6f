//! What becomes of the marks of words (`docs/theorems.md`, "Secrets that are loaded").
ghost use Rattle.std.specs.Prelude.{◌≡◌, ◌&&◌};
ghost use Rattle.secret_marks.specs.Words.{any_byte, downward, either, every_byte, lowest_byte, mark_at, every_byte_if_any, upward};

use secret_marks::WordMarks;

/// The marks of a word without any mark.
pub const UNMARKED: WordMarks = WordMarks {
    byte0: false,
    byte1: false,
    byte2: false,
    byte3: false,
};

/// The marks of a word of which every byte has this mark.
#[inline]
pub fn every_byte(mark: bool) -> WordMarks
    ensures { result ≡ every_byte mark }
{
    WordMarks {
        byte0: mark,
        byte1: mark,
        byte2: mark,
        byte3: mark,
    }
}

/// The marks of a word whose lowest byte has this mark, and no other has one.
#[inline]
pub fn lowest_byte(mark: bool) -> WordMarks
    ensures { result ≡ lowest_byte mark }
{
    WordMarks {
        byte0: mark,
        byte1: false,
        byte2: false,
        byte3: false,
    }
}

/// Whether some byte is marked.
#[inline]
pub fn any_byte(w: WordMarks) -> bool
    ensures { result ≡ any_byte w }
{
    w.byte0 | w.byte1 | w.byte2 | w.byte3
}

/// Whether every byte is marked.
#[inline(always)]
pub(crate) fn all_bytes(w: WordMarks) -> bool
    ensures { result ≡ (w.byte0 && w.byte1 && w.byte2 && w.byte3) }
{
    w.byte0 & w.byte1 & w.byte2 & w.byte3
}

/// The marks of a word of which a byte is marked where it is in either of two.
#[inline]
pub fn either(w: WordMarks, u: WordMarks) -> WordMarks
    ensures { result ≡ either w u }
{
    WordMarks {
        byte0: w.byte0 | u.byte0,
        byte1: w.byte1 | u.byte1,
        byte2: w.byte2 | u.byte2,
        byte3: w.byte3 | u.byte3,
    }
}

/// The marks from the lowest marked byte upward, as a carry goes.
#[inline]
pub fn upward(w: WordMarks) -> WordMarks
    ensures { result ≡ upward w }
{
    if all_bytes(w) {
        return w;
    }
    WordMarks {
        byte0: w.byte0,
        byte1: w.byte0 | w.byte1,
        byte2: w.byte0 | w.byte1 | w.byte2,
        byte3: w.byte0 | w.byte1 | w.byte2 | w.byte3,
    }
}

/// The marks from the highest marked byte downward, as a shift to the right goes.
#[inline]
pub fn downward(w: WordMarks) -> WordMarks
    ensures { result ≡ downward w }
{
    if all_bytes(w) {
        return w;
    }
    WordMarks {
        byte0: w.byte3 | w.byte2 | w.byte1 | w.byte0,
        byte1: w.byte3 | w.byte2 | w.byte1,
        byte2: w.byte3 | w.byte2,
        byte3: w.byte3,
    }
}

/// The marks of a word of which every byte is marked, where any was.
#[inline]
pub fn smeared(w: WordMarks) -> WordMarks
    ensures { result ≡ every_byte_if_any w }
{
    every_byte(any_byte(w))
}

/// The mark of a byte of the word, by its place: none where it has no such byte.
pub fn mark_at(w: WordMarks, i: u64) -> bool
    ensures { result ≡ mark_at w i }
{
    match i {
        0 => w.byte0,
        1 => w.byte1,
        2 => w.byte2,
        3 => w.byte3,
        _ => false,
    }
}
