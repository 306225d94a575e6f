//! The outside of the program: named files that are read, and sinks that are written, each with a count of its faults.
//!
//! A contract can't say what a real file holds or a real stream takes. So `Files` and `Sink` tell what they can: the
//! bytes under each name, or that these aren't told; what was written, or that it isn't told; and how often a call has
//! failed. What the program promises is said in these words (`docs/theorems.md`), and holds over any implementation:
//! those in memory, which tell all, and those over the host, which tell nothing but their counts and are the trusted
//! edge.
//!
//! Rules: `specs/Outside.antt`, what a call may answer; `MemoryFiles.antt`, `MemorySink.antt`, `Streams.antt`; laws of
//! texts that are written in turn in `proofs/Writing.antt`.
//!
//! Promises: what a read and a put may answer and leave; in memory, exactly what they do; of a stream of the host, what
//! a put appends.
//!
//! Clauses: `Files`, `Sink`, `MemFiles`, `MemSink`, `NeverFails`, `RealSink`.
#![tactic(auto)]

ghost use Rattle.std.specs.Prelude.{◌≡◌, List, ℕ};
ghost use Rattle.tool_io.specs.Outside.{Told, Writes, Shelf, Reads, SameContents};

mod mem_files;
mod mem_sink;
mod never_fails;
mod real;
mod streams;

pub use mem_files::{MemFile, MemFiles};
pub use mem_sink::{MemFail, MemSink};
pub use never_fails::NeverFails;
pub use real::{RealFiles, RealSink};
use std::alloc::Global;
use std::marker::Model;
use thiserror::Error;

/// A put that didn't take the whole piece.
#[derive(Clone, Copy, Debug, PartialEq, Eq, Error)]
#[error("the text could not be written whole")]
pub struct Failed;

/// Why a read gives nothing.
#[derive(Clone, Copy, Debug, PartialEq, Eq, Error)]
pub enum ReadFail {
    /// The file isn't there, or couldn't be read.
    #[error("the file isn't there, or could not be read")]
    Failed,
    /// There was no memory for its bytes.
    #[error("there is no memory for the bytes of the file")]
    NoMemory,
}

/// The bytes of a file, seen as a list.
#[derive(Drop)]
pub struct Content {
    bytes: Vec<u8>,
}

impl Model for Content {
    ghost use Rattle.std.specs.Prelude.{List, ℕ};

    ghost Value = { List ℕ };

    ghost view = { λ c. c.bytes.items };
}

impl Content {
    /// The content with these bytes. It takes no memory.
    pub fn new(bytes: Vec<u8>) -> Self
        ensures { result ≡ bytes.items }
    {
        Content { bytes }
    }

    /// The bytes of the content, in order.
    pub fn as_slice(&self) -> &[u8]
        ensures { result.now ≡ self.now }
    {
        self.bytes.as_slice()
    }
}

/// What a read of a file gives.
#[derive(Drop)]
pub enum Got {
    /// The file's bytes, all of them.
    Bytes(Content),
    /// The file has more bytes than the reader wanted.
    TooLong,
}

/// Files that are read by name.
pub trait Files {
    /// What is told of the bytes under each name, and how often a read of that name has failed, a number that never
    /// falls.
    ghost shelf: { Self → Shelf };

    /// Reads the whole of the file that has this name and at most `max` bytes. Where its content is told, the answer is
    /// those bytes, or `TooLong` exactly where there are more than `max`. Errors: `Failed`, only where the count of
    /// this name rose; `NoMemory`, where its content is told only if it has a byte and at most `max`. Any answer but
    /// `Failed` leaves the counts of all names as they were, and every answer all contents.
    fn read(&mut self, alloc: Global, name: &str, max: usize) -> Result<Got, ReadFail>
        ensures answer { Reads name.now max (shelf self.old) (shelf self.new) result }
        ensures stays { SameContents (shelf self.old) (shelf self.new) };
}

/// A sink that takes bytes.
pub trait Sink {
    /// What is told of the bytes that were written, and how often a put has failed, a number that never falls.
    ghost told: { Self → Told };

    /// Appends the piece, and leaves the count as it was. Error: `Failed`, only where the count rose; then the first
    /// bytes of the piece were appended, maybe none.
    fn put(&mut self, piece: &[u8]) -> Result<(), Failed>
        ensures { Writes piece.now (told self.old) (told self.new) result };
}
