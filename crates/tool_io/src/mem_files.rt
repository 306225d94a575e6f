//! Files in memory that fail at listed reads. What a read leaves stands in `specs/MemoryFiles.antt`.
ghost use Rattle.std.specs.Prelude.{◌≡◌, ◌<◌, ◌↔◌, IfOk, IsErr, IsErrOf, replicate, length};
ghost use Rattle.tool_io.specs.Outside.{Reads, SameContents};
ghost use Rattle.tool_io.specs.MemoryFiles.{FilesState, shelf_of, place_of, IsFileFault, files_after};

use crate::{Content, Files, Got, ReadFail};
use rv_types::NoMemory;
use std::alloc::Global;
use std::marker::Model;

/// A file in memory: its name and its bytes.
#[derive(Drop)]
pub struct MemFile {
    pub name: Content,
    pub bytes: Content,
}

/// Files in memory. A read fails exactly where its number, counted from 1, is listed or no file has the name; of two
/// files with one name the first counts. Each file has a count of its failed reads, all other names share one; a count
/// stops at 2^64 - 1.
#[derive(Drop)]
pub struct MemFiles {
    files: Vec<MemFile>,
    fails: Vec<u64>,
    reads: u64,
    counts: Vec<u64>,
    others: u64,
}

impl Model for MemFiles {
    ghost use Rattle.std.specs.Prelude.{◌≡◌, vec_len};
    ghost use Rattle.tool_io.specs.MemoryFiles.{FilesState};

    ghost Value = { FilesState };

    ghost view = { λ s. record {
      files = s.files.items;
      fails = s.fails.items;
      reads = s.reads;
      counts = s.counts.items;
      others = s.others;
    } };

    ghost invariant = { λ s. vec_len s.counts ≡ vec_len s.files };
}

// The place of the first file of this name.
pub(crate) fn find_name(files: &[MemFile], name: &str) -> Option<usize>
    ensures { result ≡ place_of name.now files.now }
{
    files
        .iter()
        .position(|f| f.name.as_slice() == name.as_bytes())
}

// A copy of these bytes. The one error is want of memory, where there are some.
pub(crate) fn copy_of(alloc: Global, bytes: &[u8]) -> Result<Content, NoMemory>
    ensures copy { IfOk result (λ c. c ≡ bytes.now) }
    ensures wanting { IsErr result → 0 < length bytes.now }
{
    let mut copy = Vec::new(alloc);
    match copy.extend_from_slice(bytes) {
        Ok(()) => Ok(Content::new(copy)),
        Err(_) => Err(NoMemory),
    }
}

impl MemFiles {
    /// Files of which no read has failed, and the numbers of the reads that are to fail. The one error is want of
    /// memory.
    pub fn new(alloc: Global, files: Vec<MemFile>, fails: Vec<u64>) -> Result<MemFiles, NoMemory>
        ensures { IfOk result (λ s. s ≡ record {
          files = files.items;
          fails = fails.items;
          reads = 0;
          counts = replicate (length files.items) 0;
          others = 0;
        }) }
    {
        let counts = vec![in alloc; 0u64; files.len()]?;
        Ok(MemFiles {
            files,
            fails,
            reads: 0,
            counts,
            others: 0,
        })
    }
}

impl Files for MemFiles {
    ghost shelf = { shelf_of };

    fn read(&mut self, alloc: Global, name: &str, max: usize) -> Result<Got, ReadFail>
        ensures answer { Reads name.now max (shelf_of self.old) (shelf_of self.new) result }
        ensures stays { SameContents (shelf_of self.old) (shelf_of self.new) }
        ensures exactly { IsFileFault self.old name.now ↔ IsErrOf result ReadFail.Failed }
        ensures after { self.new ≡ files_after self.old name.now }
    {
        self.reads = self.reads.saturating_add(1);
        let listed = self.fails.contains(&self.reads);
        match find_name(&self.files, name) {
            Some(i) => {
                if listed {
                    self.counts[i] = self.counts[i].saturating_add(1);
                    return Err(ReadFail::Failed);
                }
                let bytes = self.files[i].bytes.as_slice();
                if bytes.len() > max {
                    return Ok(Got::TooLong);
                }
                match copy_of(alloc, bytes) {
                    Ok(copy) => Ok(Got::Bytes(copy)),
                    Err(_) => Err(ReadFail::NoMemory),
                }
            }
            None => {
                self.others = self.others.saturating_add(1);
                Err(ReadFail::Failed)
            }
        }
    }
}
