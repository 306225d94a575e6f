//! A file whose headers have no fault, and its segments.
ghost use Rattle.std.specs.Prelude.{◌≡◌, ◌<◌, ◌≤◌, ◌+◌, length, slice_range};

use crate::fields::{LOAD, header_of, program_header};
use std::marker::Model;

/// A segment to be loaded.
#[derive(Clone, Copy, Debug)]
pub struct Segment<'a> {
    /// The address of its first byte.
    pub vaddr: u32,
    /// The number of its bytes in memory.
    pub memsz: u32,
    /// Bit 0 says that the segment's bytes may be fetched. The other bits say nothing here.
    pub flags: u32,
    /// The bytes that the file has for the segment, the first ones; those past them are 0.
    pub bytes: &'a [u8],
}

/// A file whose headers have no fault, seen as its bytes.
#[derive(Drop)]
pub struct Segments<'a> {
    pub(crate) file: &'a [u8],
}

impl<'a> Model for Segments<'a> {
    ghost use Rattle.std.specs.Prelude.{◌≡◌, List, ℕ, None};
    ghost use Rattle.elf_loader.specs.Faults.{header_fault};

    ghost Value = { List ℕ };

    ghost view = { λ s. s.file.now };

    ghost invariant = { λ s. header_fault s.file.now ≡ None };
}

/// The bytes of a file from a place on, so many; where there are none to take, the place may be anywhere.
fn part(file: &[u8], offset: u32, size: u32) -> &[u8]
    requires { 0 < size → offset + size ≤ length file.now }
    ensures { result.now ≡ slice_range file.now offset (offset + size) }
{
    if size == 0 {
        return &file[..0];
    }
    let start = offset as usize;
    &file[start..start + size as usize]
}

impl<'a> Segments<'a> {
    ghost use Rattle.std.specs.Prelude.{◌≡◌, None, option_map};
    ghost use Rattle.elf_loader.specs.Fields.{entry_of, count_of};
    ghost use Rattle.elf_loader.specs.Faults.{header_fault};
    ghost use Rattle.elf_loader.specs.Image.{segment_at};
    ghost use Rattle.elf_loader.specs.inner.Image.{segment_text};

    /// The address where fetch begins.
    pub fn entry(&self) -> u32
        ensures { result ≡ entry_of self.now }
    {
        header_of(self.file).entry
    }

    /// The number of program headers.
    pub fn count(&self) -> u16
        ensures value { result ≡ count_of self.now }
        ensures faultless { header_fault self.now ≡ None }
    {
        header_of(self.file).count
    }

    /// The segment of program header i, None exactly past the last and where it isn't one to be loaded or takes no
    /// memory.
    #[tactic(auto, unfolding(crate::specs::Image::segment_at))]
    pub fn at(&self, i: u16) -> Option<Segment<'a>>
        ensures { option_map segment_text result ≡ segment_at self.now i }
    {
        if i >= self.count() {
            return None;
        }
        let header = program_header(self.file, i);
        if header.kind != LOAD || header.memsz == 0 {
            return None;
        }
        Some(Segment {
            vaddr: header.vaddr,
            memsz: header.memsz,
            flags: header.flags,
            bytes: part(self.file, header.offset, header.filesz),
        })
    }
}
