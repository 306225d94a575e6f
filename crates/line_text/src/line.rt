//! A line of text that is built piece by piece.
ghost use Rattle.std.specs.Prelude.{◌≡◌, ◌≤◌, ◌+◌, ◌*◌, [], ◌++◌, length, decimal, flat_map};
ghost use Rattle.line_text.specs.Digits.{hex2, hex8};

use crate::draft::{Draft, LINE_MAX};
use std::marker::Model;

/// A line of text: at most 9,600 bytes, seen as a list. It takes no memory. What is appended is written on its draft,
/// from its length on.
#[derive(Drop)]
pub struct Line {
    draft: Draft,
    len: usize,
}

impl Model for Line {
    ghost use Rattle.std.specs.Prelude.{List, ℕ, ◌≡◌, ◌≤◌, length, take};
    ghost use Rattle.line_text.specs.declared.draft.TheConstants.{LINE_MAX};

    ghost Value = { List ℕ };

    ghost view = { λ l. take l.len l.draft };

    ghost invariant = { λ l. (l.len ≤ LINE_MAX) × (length (take l.len l.draft) ≡ l.len) };
}

impl Line {
    /// A line without any byte.
    pub fn new() -> Self
        ensures { result ≡ [] }
    {
        Line {
            draft: Draft::new(),
            len: 0,
        }
    }

    /// Takes all bytes out. It only sets the length: a line that is made once serves many texts.
    pub fn clear(&mut self)
        ensures { self.new ≡ [] }
    {
        self.len = 0;
    }

    /// The bytes of the line, in order.
    pub fn as_slice(&self) -> &[u8]
        ensures { result.now ≡ self.now }
    {
        self.draft.before(self.len)
    }

    /// Appends the bytes of a text, where there is room for them.
    #[inline]
    pub fn add(&mut self, text: &[u8])
        requires { length self.old + length text.now ≤ LINE_MAX }
        ensures { self.new ≡ self.old ++ text.now }
    {
        self.len = self.draft.put_slice(self.len, text);
    }

    /// Appends a number in decimal: at most 20 digits.
    pub fn add_decimal(&mut self, n: u64)
        requires { length self.old + 20 ≤ LINE_MAX }
        ensures text { self.new ≡ self.old ++ decimal n }
        ensures short { length self.new ≤ length self.old + 20 }
    {
        self.len = self.draft.put_decimal(self.len, n);
    }

    /// Appends a number of 32 bits in decimal: at most ten digits.
    pub fn add_decimal_word(&mut self, n: u32)
        requires { length self.old + 10 ≤ LINE_MAX }
        ensures text { self.new ≡ self.old ++ decimal n }
        ensures short { length self.new ≤ length self.old + 10 }
    {
        self.len = self.draft.put_decimal_word(self.len, n);
    }

    /// Appends the two hexadecimal digits of a byte.
    #[inline]
    pub fn add_hex2(&mut self, byte: u8)
        requires { length self.old + 2 ≤ LINE_MAX }
        ensures text { self.new ≡ self.old ++ hex2 byte }
        ensures len { length self.new ≡ length self.old + 2 }
    {
        self.len = self.draft.put_hex2(self.len, byte);
    }

    /// Appends the eight hexadecimal digits of a word.
    #[inline]
    pub fn add_hex8(&mut self, word: u32)
        requires { length self.old + 8 ≤ LINE_MAX }
        ensures text { self.new ≡ self.old ++ hex8 word }
        ensures len { length self.new ≡ length self.old + 8 }
    {
        self.len = self.draft.put_hex8(self.len, word);
    }

    /// Appends the two hexadecimal digits of each byte in turn.
    pub fn add_hex_bytes(&mut self, bytes: &[u8])
        requires { length self.old + 2 * length bytes.now ≤ LINE_MAX }
        ensures text { self.new ≡ self.old ++ flat_map hex2 bytes.now }
        ensures len { length self.new ≡ length self.old + 2 * length bytes.now }
    {
        for byte in bytes {
            self.add_hex2(*byte);
        }
    }
}
