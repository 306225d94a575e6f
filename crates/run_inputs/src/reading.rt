//! Reading a file whole, up to a limit.
ghost use Rattle.std.specs.Prelude.{MatchResult};
ghost use Rattle.tool_io.specs.declared.Got.TheVariants.{Bytes};
ghost use Rattle.tool_io.specs.Outside.{SameContents, SameCounts};
ghost use Rattle.run_inputs.specs.Input.{MayGive};
ghost use Rattle.run_inputs.specs.inner.Input.{UnreadBy};

use std::alloc::Global;
use thiserror::Error;
use tool_io::{Content, Files, Got, ReadFail};

/// The most bytes of a description.
pub(crate) const DESCRIPTION_MAX: usize = 65536;

/// The most bytes of an image.
pub(crate) const IMAGE_MAX: usize = 33554432;

/// Why a file isn't read.
#[derive(Clone, Copy, Debug, PartialEq, Eq, Error)]
pub(crate) enum Unread {
    /// The read failed.
    #[error("the read failed")]
    Failed,
    /// There are more bytes than the limit.
    #[error("there are more bytes than the limit")]
    TooLong,
    /// There was no memory for the bytes.
    #[error("there was no memory for the bytes")]
    NoMemory,
}

/// The bytes of the file with this name, of which there are to be at most `max`.
pub(crate) fn read_file<F: Files>(
    alloc: Global,
    name: &str,
    max: usize,
    files: &mut F,
) -> Result<Content, Unread>
    ensures answer { MatchResult result
        (λ bytes. MayGive (F.shelf files.old) name.now max (Bytes bytes)
        × SameCounts (F.shelf files.old) (F.shelf files.new))
        (λ e. UnreadBy name.now max (F.shelf files.old) (F.shelf files.new) e) }
    ensures stays { SameContents (F.shelf files.old) (F.shelf files.new) }
{
    match files.read(alloc, name, max) {
        Ok(Got::Bytes(bytes)) => Ok(bytes),
        Ok(Got::TooLong) => Err(Unread::TooLong),
        Err(ReadFail::Failed) => Err(Unread::Failed),
        Err(ReadFail::NoMemory) => Err(Unread::NoMemory),
    }
}
