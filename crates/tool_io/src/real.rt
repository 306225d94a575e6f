//! The trusted edge: the host's files and streams. A host's file tells no content, so files tell only how often a read
//! has failed. A sink tells as little as `Sink` asks of it; what a put leaves of a stream that tells its bytes is a
//! clause of its own.
ghost use Rattle.std.specs.Prelude.{◌≡◌, None};
ghost use Rattle.tool_io.specs.Outside.{Writes};
ghost use Rattle.tool_io.specs.Streams.{StreamState, PutsAll};

use crate::streams::{put_all, read_opened};
use crate::{Failed, Files, Got, ReadFail, Sink};
use std::alloc::Global;
use std::io::Write;
use std::marker::Model;
use std::rt;

/// A stream of the host, and how often a put on it has failed. A write that takes nothing of what is left is a failure.
#[derive(Drop)]
pub struct RealSink<W: Write + Drop> {
    stream: W,
    count: u64,
}

impl<W: Write + Drop> Model for RealSink<W> {
    ghost use Rattle.tool_io.specs.Streams.{StreamState};

    ghost Value = { StreamState };

    ghost view = { λ s. record { held = W.contents s.stream; faults = s.count } };
}

impl<W: Write + Drop> RealSink<W> {
    /// A sink over the stream, with a count of 0.
    pub fn new(stream: W) -> Self
        ensures { result ≡ record { held = W.contents stream; faults = 0 } }
    {
        RealSink { stream, count: 0 }
    }
}

impl<W: Write + Drop> Sink for RealSink<W> {
    ghost told = { λ s. record { written = None; faults = s.faults } };

    fn put(&mut self, piece: &[u8]) -> Result<(), Failed>
        ensures writes { Writes piece.now
            (record { written = None; faults = self.old.faults })
            (record { written = None; faults = self.new.faults }) result }
        ensures stream { PutsAll piece.now self.old.held self.new.held result }
    {
        match put_all(&mut self.stream, piece) {
            Ok(()) => Ok(()),
            Err(Failed) => {
                self.count = self.count.saturating_add(1);
                Err(Failed)
            }
        }
    }
}

/// The host's files, and how often a read has failed, one count for all names.
#[derive(Drop)]
pub struct RealFiles<'a, R: rt::Files> {
    host: &'a R,
    count: u64,
}

impl<'a, R: rt::Files> Model for RealFiles<'a, R> {
    ghost use Rattle.std.specs.Prelude.{ℕ};

    ghost Value = { ℕ };

    ghost view = { λ s. s.count };
}

impl<'a, R: rt::Files> RealFiles<'a, R> {
    /// The host's files, with a count of 0.
    pub fn new(host: &'a R) -> Self
        ensures { result ≡ 0 }
    {
        RealFiles { host, count: 0 }
    }
}

impl<'a, R: rt::Files> Files for RealFiles<'a, R> {
    ghost shelf = { λ faults. record { content = λ name. None; faults = λ name. faults } };

    fn read(&mut self, alloc: Global, name: &str, max: usize) -> Result<Got, ReadFail> {
        let answer = read_opened(alloc, std::fs::open(self.host, name), max);
        if let Err(ReadFail::Failed) = answer {
            self.count = self.count.saturating_add(1);
        }
        answer
    }
}
