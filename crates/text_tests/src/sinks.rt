//! The sink in memory with a put that fails; and pieces that are put into a stream that takes few bytes at a time,
//! takes nothing, or fails in mid-stream.
use crate::asserting::assert_same;
use std::alloc::Global;
use std::io;
use std::io::{ErrorKind, Write};
use std::test::Fail;
use tool_io::{Failed, MemFail, MemSink, NeverFails, RealSink, Sink};

/// A sink with room for so many bytes, whose put of this number fails after two bytes, 0 for none.
pub fn sink_of(alloc: Global, room: usize, put: u64) -> Result<MemSink, Fail> {
    let mut fails = Vec::new(alloc);
    fails.push(MemFail { call: put, sent: 2 })?;
    Ok(MemSink::new(alloc, room, fails)?)
}

// Pieces, put in turn into a sink with room for seven bytes whose second put fails.
const PIECES: [(&[u8], Result<(), Failed>); 4] = [
    (b"ab", Ok(())),
    (b"cde", Err(Failed)),
    (b"fg", Ok(())),
    (b"hi", Err(Failed)),
];

#[test]
fn sink_in_memory(rt: HostRuntime) -> Result<(), Fail> {
    let mut sink = sink_of(rt.alloc(), 7, 2)?;
    for &(piece, wanted) in &PIECES {
        assert_same(&rt, &(piece, sink.put(piece)), &(piece, wanted));
    }
    assert_same(&rt, &sink.as_slice(), &b"abcdfgh".as_slice());
    let mut never = NeverFails::new(Vec::new(rt.alloc()));
    assert_same(&rt, &never.put(b"abc"), &Ok(()));
    Ok(())
}

// What a stream does once its good writes are used up.
#[derive(Clone, Copy)]
enum After {
    TakesNothing,
    Fails,
}

// A stream that takes at most `step` bytes a write, for `good` writes.
#[derive(Drop)]
struct Drain<'a> {
    bytes: &'a mut Vec<u8>,
    step: usize,
    good: usize,
    after: After,
}

impl Write for Drain<'_> {
    fn write(&mut self, buf: &[u8]) -> io::Result<usize> {
        if self.good == 0 {
            return match self.after {
                After::TakesNothing => Ok(0),
                After::Fails => Err(io::Error::from(ErrorKind::Other)),
            };
        }
        self.good -= 1;
        let sent = buf.len().min(self.step);
        self.bytes.extend_from_slice(&buf[..sent])?;
        Ok(sent)
    }

    fn flush(&mut self) -> io::Result<()> {
        Ok(())
    }
}

// The piece, bytes a write, writes before the end; what then, the answer, what is there.
type Put = (
    &'static str,
    usize,
    usize,
    After,
    Result<(), Failed>,
    &'static str,
);

const PUTS: [Put; 7] = [
    ("abcdef", 9, 1, After::Fails, Ok(()), "abcdef"),
    ("abcdef", 1, 6, After::Fails, Ok(()), "abcdef"),
    ("abcdef", 4, 2, After::TakesNothing, Ok(()), "abcdef"),
    ("abcdef", 2, 2, After::Fails, Err(Failed), "abcd"),
    ("abcdef", 2, 2, After::TakesNothing, Err(Failed), "abcd"),
    ("abcdef", 2, 0, After::Fails, Err(Failed), ""),
    ("", 2, 0, After::Fails, Ok(()), ""),
];

// Puts a piece into such a stream over these bytes.
fn put(
    bytes: &mut Vec<u8>,
    piece: &[u8],
    step: usize,
    good: usize,
    after: After,
) -> Result<(), Failed> {
    let mut sink = RealSink::new(Drain {
        bytes,
        step,
        good,
        after,
    });
    sink.put(piece)
}

#[test]
fn sink_over_a_stream(rt: HostRuntime) -> Result<(), Fail> {
    for &(piece, step, good, after, wanted, sent) in &PUTS {
        let mut bytes = Vec::new(rt.alloc());
        let answer = put(&mut bytes, piece.as_bytes(), step, good, after);
        assert_same(&rt, &(step, good, answer), &(step, good, wanted));
        assert_same(&rt, &bytes.as_slice(), &sent.as_bytes());
    }
    Ok(())
}
