//! Files in memory and a sink that never fail.
ghost use Rattle.std.specs.Prelude.{◌≡◌, Some, None};
ghost use Rattle.tool_io.specs.MemoryFiles.{held_or_empty};

use crate::mem_files::{MemFile, copy_of, find_name};
use crate::{Failed, Files, Got, ReadFail, Sink};
use std::alloc::Global;
use std::marker::Model;

/// Files in which a name that no file has stands for the empty content, and a sink that takes every piece, keeps
/// nothing and tells nothing. Both counts are always 0.
#[derive(Drop)]
pub struct NeverFails {
    files: Vec<MemFile>,
}

impl Model for NeverFails {
    ghost use Rattle.std.specs.Prelude.{List};
    ghost use Rattle.tool_io.specs.declared.mem_files.MemFile.{MemFile};

    ghost Value = { List MemFile };

    ghost view = { λ s. s.files.items };
}

// The bytes of the first file of this name, or none.
fn held_or_empty<'a>(files: &'a [MemFile], name: &str) -> &'a [u8]
    ensures { result.now ≡ held_or_empty files.now name.now }
{
    match find_name(files, name) {
        Some(i) => files[i].bytes.as_slice(),
        None => &[],
    }
}

impl NeverFails {
    /// Files of which no read fails. It takes no memory.
    pub fn new(files: Vec<MemFile>) -> NeverFails
        ensures { result ≡ files.items }
    {
        NeverFails { files }
    }
}

impl Files for NeverFails {
    ghost shelf = { λ s. record { content = λ name. Some (held_or_empty s name); faults = λ name. 0 } };

    fn read(&mut self, alloc: Global, name: &str, max: usize) -> Result<Got, ReadFail> {
        let bytes = held_or_empty(&self.files, name);
        if bytes.len() > max {
            return Ok(Got::TooLong);
        }
        match copy_of(alloc, bytes) {
            Ok(copy) => Ok(Got::Bytes(copy)),
            Err(_) => Err(ReadFail::NoMemory),
        }
    }
}

impl Sink for NeverFails {
    ghost told = { λ s. record { written = None; faults = 0 } };

    fn put(&mut self, piece: &[u8]) -> Result<(), Failed> {
        let _ = piece;
        Ok(())
    }
}
