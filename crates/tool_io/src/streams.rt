//! The whole of a stream read, and the whole of a piece written, whatever the single reads and writes of the stream
//! take. What is promised over a stream that tells its bytes stands in `specs/Streams.antt`.
ghost use Rattle.std.specs.Prelude.{◌≡◌, IfOk, IfErr, IsErr, Err};
ghost use Rattle.tool_io.specs.Outside.{GetsTold};
ghost use Rattle.tool_io.specs.Streams.{GivesSome, HasGiven, PutsAll};

use crate::{Content, Failed, Got, ReadFail};
use std::alloc::Global;
use std::io;
use std::io::{Read, Write};

/// How many bytes one read takes at most.
const BUFFER: usize = 4096;

// Reads a stream to its end: its bytes, or that there are more than `max`; it reads at most one byte more than that.
// Errors: `Failed` where a read fails, after however many bytes; `NoMemory`, only once the stream has given bytes.
fn read_up_to<T: Read>(alloc: Global, from: &mut T, max: usize) -> Result<Got, ReadFail>
    ensures got { IfOk result (GetsTold (T.remaining from.old) max) }
    ensures wanting { IfErr result (λ e.
        e ≡ ReadFail.NoMemory → HasGiven (T.remaining from.old) (T.remaining from.new)) }
{
    let mut bytes = Vec::new(alloc);
    let mut buffer = [0u8; BUFFER];
    while bytes.len() <= max {
        let room = (max - bytes.len()).saturating_add(1).min(BUFFER);
        match from.read(&mut buffer[..room]) {
            Ok(0) => return Ok(Got::Bytes(Content::new(bytes))),
            Ok(got) => {
                if bytes.extend_from_slice(&buffer[..got]).is_err() {
                    return Err(ReadFail::NoMemory);
                }
            }
            Err(_) => return Err(ReadFail::Failed),
        }
    }
    Ok(Got::TooLong)
}

// Reads a stream that was opened to its end: its bytes, or that there are more than `max`. Errors: `Failed` where it
// couldn't be opened, or a read of it fails; `NoMemory`, never of a stream that tells that it is empty.
pub(crate) fn read_opened<T: Read + Drop>(
    alloc: Global,
    opened: io::Result<T>,
    max: usize,
) -> Result<Got, ReadFail>
    ensures got { IfOk opened (λ stream. IfOk result (GetsTold (T.remaining stream) max)) }
    ensures wanting { IfOk opened (λ stream. IfErr result (λ e.
        e ≡ ReadFail.NoMemory → GivesSome (T.remaining stream))) }
    ensures unopened { IsErr opened → result ≡ Err ReadFail.Failed }
{
    match opened {
        Ok(mut stream) => read_up_to(alloc, &mut stream, max),
        Err(_) => Err(ReadFail::Failed),
    }
}

// Writes the whole piece. Error: `Failed` where a write fails or takes nothing of what is left.
pub(crate) fn put_all<W: Write>(stream: &mut W, piece: &[u8]) -> Result<(), Failed>
    ensures { PutsAll piece.now (W.contents stream.old) (W.contents stream.new) result }
{
    let mut rest = piece;
    while !rest.is_empty() {
        match stream.write(rest) {
            Ok(0) => return Err(Failed),
            Ok(sent) => rest = &rest[sent..],
            Err(_) => return Err(Failed),
        }
    }
    Ok(())
}
