//! What one step or cycle puts out.
ghost use Rattle.std.specs.Prelude.{◌≡◌, ◌<◌, ◌≤◌, ◌+◌, ◌∷◌, [], ◌++◌, length};

use arrayvec::ArrayVec;
use std::marker::Model;

/// The most bytes that one write call puts out.
pub const PIECE_MAX: usize = 1024;

/// A piece of output: at most 1024 bytes, seen as a list. It takes no memory.
#[derive(Drop)]
pub struct Piece {
    bytes: ArrayVec<u8, PIECE_MAX>,
}

impl Model for Piece {
    ghost use Rattle.std.specs.Prelude.{List, ℕ};

    ghost Value = { List ℕ };

    ghost view = { λ p. p.bytes.items };
}

impl Piece {
    /// A piece of output without any byte.
    pub fn new() -> Self
        ensures { result ≡ [] }
    {
        Piece {
            bytes: ArrayVec::new(),
        }
    }

    /// The bytes of the piece, in order.
    pub fn as_slice(&self) -> &[u8]
        ensures value { result.now ≡ self.now }
        ensures few { length result.now ≤ 1024 }
    {
        self.bytes.as_slice()
    }

    /// Takes all bytes out of the piece.
    pub fn clear(&mut self)
        ensures { self.new ≡ [] }
    {
        self.bytes.clear();
    }

    /// Appends one byte to the piece.
    pub fn push(&mut self, byte: u8)
        requires { length self.old < 1024 }
        ensures { self.new ≡ self.old ++ byte ∷ [] }
    {
        self.bytes.push(byte);
    }

    /// Appends these bytes to the piece.
    pub fn extend(&mut self, bytes: &[u8])
        requires { length self.old + length bytes.now ≤ 1024 }
        ensures { self.new ≡ self.old ++ bytes.now }
    {
        for byte in bytes {
            self.push(*byte);
        }
    }
}
