//! What a text is written on.
//!
//! Each call writes from a place on and answers the place behind. So who writes has the place where the text goes on as
//! a value of its own. A length beside the bytes would be read and written in memory with each piece of the text, since
//! a compiler can't know that no byte is written over it.
ghost use Rattle.std.specs.Prelude.{◌≡◌, ◌<◌, ◌≤◌, ◌+◌, ◌/◌, ◌%◌, ◌++◌, length, take, decimal};
ghost use Rattle.line_text.specs.Digits.{hex2, hex8};
ghost use Rattle.line_text.specs.inner.Digits.{decimal2, decimal4};

use crate::digits::{decimal_pair, hex_pair};
use itoa::Buffer;
use std::marker::Model;

/// The most bytes that a line has.
pub const LINE_MAX: usize = 9600;

/// 9,600 places with a byte each, seen as a list. They take no memory. A text that is written from a place on leaves
/// what stands in front of it as it is; what stands behind it means nothing.
#[derive(Drop)]
pub struct Draft {
    places: [u8; LINE_MAX],
}

impl Model for Draft {
    ghost use Rattle.std.specs.Prelude.{List, ℕ};

    ghost Value = { List ℕ };

    ghost view = { λ d. d.places };
}

// Writes bytes over those from a place on.
#[inline]
fn paste(places: &mut [u8], at: usize, text: &[u8])
    requires { at + length text.now ≤ length places.old }
    ensures front { take (at + length text.now) places.new ≡ take at places.old ++ text.now }
    ensures len { length places.new ≡ length places.old }
{
    places[at..at + text.len()].copy_from_slice(text);
}

impl Draft {
    /// A draft on which no text stands yet.
    pub fn new() -> Self
        ensures { length result ≡ LINE_MAX }
    {
        Draft {
            places: [0; LINE_MAX],
        }
    }

    /// The bytes in front of a place.
    pub fn before(&self, end: usize) -> &[u8]
        requires { end ≤ LINE_MAX }
        ensures { result.now ≡ take end self.now }
    {
        &self.places[..end]
    }

    /// Writes the bytes of a text.
    #[inline(always)]
    pub(crate) fn put_slice(&mut self, at: usize, text: &[u8]) -> usize
        requires { at + length text.now ≤ LINE_MAX }
        ensures text { take result self.new ≡ take at self.old ++ text.now }
        ensures end { result ≡ at + length text.now }
    {
        paste(&mut self.places, at, text);
        at + text.len()
    }

    /// Writes a text of a fixed length. It is passed by value, so no test is needed that it lies apart from the places.
    #[inline(always)]
    pub fn put<const N: usize>(&mut self, at: usize, text: [u8; N]) -> usize
        requires { at + N ≤ LINE_MAX }
        ensures text { take result self.new ≡ take at self.old ++ text.entry }
        ensures end { result ≡ at + N }
    {
        self.put_slice(at, &text)
    }

    /// Writes a number in decimal: at most 20 digits.
    #[inline(always)]
    pub fn put_decimal(&mut self, at: usize, n: u64) -> usize
        requires { at + 20 ≤ LINE_MAX }
        ensures text { take result self.new ≡ take at self.old ++ decimal n }
        ensures end { result ≡ at + length (decimal n) }
        ensures short { result ≤ at + 20 }
    {
        self.put_number(at, n)
    }

    /// Writes a number of 32 bits in decimal: at most ten digits.
    #[inline(always)]
    pub fn put_decimal_word(&mut self, at: usize, n: u32) -> usize
        requires { at + 10 ≤ LINE_MAX }
        ensures text { take result self.new ≡ take at self.old ++ decimal n }
        ensures end { result ≡ at + length (decimal n) }
        ensures short { result ≤ at + 10 }
    {
        self.put_number(at, n as u64)
    }

    // Writes a number in decimal: up to six digits in pairs, where the call stands.
    #[inline(always)]
    fn put_number(&mut self, at: usize, n: u64) -> usize
        requires { at + length (decimal n) ≤ LINE_MAX }
        ensures text { take result self.new ≡ take at self.old ++ decimal n }
        ensures end { result ≡ at + length (decimal n) }
    {
        if n < 10_000 {
            return self.put_up_to_four(at, n);
        }
        if n < 1_000_000 {
            let behind = self.put_up_to_two(at, n / 10_000);
            return self.put_four(behind, (n % 10_000) as u32);
        }
        self.put_long(at, n)
    }

    // Writes a longer number: up to eight digits in pairs. Few numbers are that long, so it is built in nowhere.
    #[inline(never)]
    fn put_long(&mut self, at: usize, n: u64) -> usize
        requires long { 10000 ≤ n }
        requires room { at + length (decimal n) ≤ LINE_MAX }
        ensures text { take result self.new ≡ take at self.old ++ decimal n }
        ensures end { result ≡ at + length (decimal n) }
    {
        if n < 100_000_000 {
            let behind = self.put_up_to_four(at, n / 10_000);
            return self.put_four(behind, (n % 10_000) as u32);
        }
        let mut buffer = Buffer::new();
        self.put_slice(at, buffer.format(n).as_bytes())
    }

    // Writes a number of up to four digits.
    #[inline(always)]
    fn put_up_to_four(&mut self, at: usize, n: u64) -> usize
        requires few { n < 10000 }
        requires room { at + length (decimal n) ≤ LINE_MAX }
        ensures text { take result self.new ≡ take at self.old ++ decimal n }
        ensures end { result ≡ at + length (decimal n) }
    {
        if n < 100 {
            return self.put_up_to_two(at, n);
        }
        let behind = self.put_up_to_two(at, n / 100);
        self.put_pair(behind, n % 100)
    }

    // Writes a number of one digit or two.
    #[inline(always)]
    fn put_up_to_two(&mut self, at: usize, n: u64) -> usize
        requires few { n < 100 }
        requires room { at + length (decimal n) ≤ LINE_MAX }
        ensures text { take result self.new ≡ take at self.old ++ decimal n }
        ensures end { result ≡ at + length (decimal n) }
    {
        if n < 10 {
            return self.put(at, [b'0' + n as u8]);
        }
        self.put_pair(at, n)
    }

    // Writes the four decimal digits of a number below 10,000.
    #[inline(always)]
    fn put_four(&mut self, at: usize, n: u32) -> usize
        requires few { n < 10000 }
        requires room { at + 4 ≤ LINE_MAX }
        ensures text { take result self.new ≡ take at self.old ++ decimal4 n }
        ensures end { result ≡ at + 4 }
    {
        let behind = self.put_pair(at, (n / 100) as u64);
        self.put_pair(behind, (n % 100) as u64)
    }

    // Writes the two decimal digits of a number below 100.
    #[inline(always)]
    fn put_pair(&mut self, at: usize, n: u64) -> usize
        requires few { n < 100 }
        requires room { at + 2 ≤ LINE_MAX }
        ensures text { take result self.new ≡ take at self.old ++ decimal2 n }
        ensures end { result ≡ at + 2 }
    {
        self.put(at, decimal_pair(n))
    }

    /// Writes the two hexadecimal digits of a byte.
    #[inline(always)]
    pub(crate) fn put_hex2(&mut self, at: usize, byte: u8) -> usize
        requires { at + 2 ≤ LINE_MAX }
        ensures text { take result self.new ≡ take at self.old ++ hex2 byte }
        ensures end { result ≡ at + 2 }
    {
        self.put(at, hex_pair(byte))
    }

    /// Writes the eight hexadecimal digits of a word.
    #[inline(always)]
    pub fn put_hex8(&mut self, at: usize, word: u32) -> usize
        requires { at + 8 ≤ LINE_MAX }
        ensures text { take result self.new ≡ take at self.old ++ hex8 word }
        ensures end { result ≡ at + 8 }
    {
        let second = self.put_hex2(at, (word / 0x100_0000) as u8);
        let third = self.put_hex2(second, (word / 0x1_0000 % 0x100) as u8);
        let fourth = self.put_hex2(third, (word / 0x100 % 0x100) as u8);
        self.put_hex2(fourth, (word % 0x100) as u8)
    }
}
