//! A sink in memory that fails at listed puts. What a put leaves stands in `specs/MemorySink.antt`.
ghost use Rattle.std.specs.Prelude.{◌≡◌, ◌≤◌, ◌↔◌, [], Some, IfOk, IsErr};
ghost use Rattle.tool_io.specs.Outside.{Writes};
ghost use Rattle.tool_io.specs.MemorySink.{SinkState, sent_at, IsSinkFault, sink_after};

use crate::{Failed, Sink};
use rv_types::NoMemory;
use std::alloc::Global;
use std::marker::Model;

/// A put that is to fail: its number, counted from 1, and how many of its bytes go out before.
#[derive(Clone, Copy, Debug, PartialEq, Eq)]
pub struct MemFail {
    pub call: u64,
    pub sent: usize,
}

/// A sink in memory with a fixed room in bytes, which it takes when it is made: a put takes no memory. A put fails
/// exactly where its number is listed or the piece is longer than the room that is left. Its count stops at 2^64 - 1.
#[derive(Drop)]
pub struct MemSink {
    bytes: Vec<u8>,
    room: usize,
    fails: Vec<MemFail>,
    calls: u64,
    count: u64,
}

impl Model for MemSink {
    ghost use Rattle.std.specs.Prelude.{◌≤◌, vec_len, vec_capacity};
    ghost use Rattle.tool_io.specs.MemorySink.{SinkState};

    ghost Value = { SinkState };

    ghost view = { λ s. record {
      bytes = s.bytes.items;
      room = s.room;
      fails = s.fails.items;
      calls = s.calls;
      count = s.count;
    } };

    ghost invariant = { λ s. (s.room ≤ vec_capacity s.bytes) × (vec_len s.bytes ≤ s.room) };
}

// How many bytes go out before the fault of this call, where it is listed.
fn sent_of(fails: &[MemFail], call: u64) -> Option<usize>
    ensures { result ≡ sent_at call fails.now }
{
    fails.iter().find(|f| f.call == call).map(|f| f.sent)
}

impl MemSink {
    /// An empty sink with this room in bytes, that fails at these puts. The one error is want of memory.
    pub fn new(alloc: Global, room: usize, fails: Vec<MemFail>) -> Result<MemSink, NoMemory>
        ensures { IfOk result (λ s. s ≡ record { bytes = []; room = room; fails = fails.items; calls = 0; count = 0 }) }
    {
        let bytes = Vec::with_capacity(alloc, room)?;
        Ok(MemSink {
            bytes,
            room,
            fails,
            calls: 0,
            count: 0,
        })
    }

    /// The bytes that were written, in order.
    pub fn as_slice(&self) -> &[u8]
        ensures { result.now ≡ self.now.bytes }
    {
        self.bytes.as_slice()
    }
}

impl Sink for MemSink {
    ghost told = { λ s. record { written = Some s.bytes; faults = s.count } };

    fn put(&mut self, piece: &[u8]) -> Result<(), Failed>
        ensures writes { Writes piece.now
            (record { written = Some self.old.bytes; faults = self.old.count })
            (record { written = Some self.new.bytes; faults = self.new.count }) result }
        ensures exactly { IsErr result ↔ IsSinkFault self.old piece.now }
        ensures after { self.new ≡ sink_after self.old piece.now }
    {
        self.calls = self.calls.saturating_add(1);
        let left = self.room - self.bytes.len();
        let listed = sent_of(&self.fails, self.calls);
        if listed.is_none() && piece.len() <= left {
            let _ = self.bytes.extend_from_slice(piece);
            return Ok(());
        }
        let sent = listed.unwrap_or(piece.len()).min(piece.len()).min(left);
        let _ = self.bytes.extend_from_slice(&piece[..sent]);
        self.count = self.count.saturating_add(1);
        Err(Failed)
    }
}
