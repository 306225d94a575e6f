//! Marks of bytes that are loaded and stored.
ghost use Rattle.std.specs.Prelude.{◌≡◌, ◌+◌, ◌≤◌, length};
ghost use Rattle.secret_marks.specs.Marks.{with_byte_marks};
ghost use Rattle.secret_marks.specs.Words.{every_byte, lowest_byte};

use crate::words::{UNMARKED, every_byte};
use secret_marks::WordMarks;

/// The marks of the lower half of a word, extended by its sign.
pub fn signed_half(word: WordMarks) -> WordMarks
    ensures { result ≡ record (every_byte word.byte1) { byte0 = word.byte0 } }
{
    WordMarks {
        byte0: word.byte0,
        ..every_byte(word.byte1)
    }
}

/// The marks of the lower half of a word, extended by zeros.
pub fn lower_half(word: WordMarks) -> WordMarks
    ensures { result ≡ record (lowest_byte word.byte0) { byte1 = word.byte1 } }
{
    WordMarks {
        byte0: word.byte0,
        byte1: word.byte1,
        ..UNMARKED
    }
}

/// Gives `count` bytes of memory, from a position on, the marks of a word's lowest bytes.
pub fn write_memory(bytes: &mut Vec<bool>, at: usize, count: u32, marks: WordMarks)
    requires inside { at + count ≤ length bytes.old.items }
    requires few { count ≤ 4 }
    ensures marks { bytes.new.items ≡ with_byte_marks bytes.old.items at count marks }
    ensures memory { length bytes.new.items ≡ length bytes.old.items }
{
    let new = [marks.byte0, marks.byte1, marks.byte2, marks.byte3];
    let count = count as usize;
    bytes[at..at + count].copy_from_slice(&new[..count]);
}
