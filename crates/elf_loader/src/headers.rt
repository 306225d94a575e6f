//! The tests of the headers, in their order (`specs/Faults.antt`).
ghost use Rattle.std.specs.Prelude.{◌≡◌, ◌≤◌, ◌<◌, ◌+◌, ◌*◌, length, map, None, Some, MatchResult};
ghost use Rattle.std.specs.List.{range_with_len};
ghost use Rattle.elf_loader.specs.Fields.{header_of};
ghost use Rattle.elf_loader.specs.Faults.{first_some, field_fault, table_fault, program_header_fault, header_fault};

use crate::faults::ElfFault;
use crate::fields::{
    CLASS_32, EXECUTABLE, HEADER_SIZE, Header, INTERP, LITTLE_ENDIAN, LOAD, PROGRAM_HEADER_SIZE,
    RISC_V, VERSION, has_magic, header_of, program_header,
};
use crate::parts::Segments;

/// The fault of the header's fields.
fn field_fault(header: &Header) -> Option<ElfFault>
    ensures { result ≡ field_fault header.now }
{
    if header.class != CLASS_32 {
        return Some(ElfFault::Class(header.class));
    }
    if header.encoding != LITTLE_ENDIAN {
        return Some(ElfFault::Data(header.encoding));
    }
    if header.version != VERSION {
        return Some(ElfFault::Version(header.version));
    }
    if header.kind != EXECUTABLE {
        return Some(ElfFault::FileType(header.kind));
    }
    if header.machine != RISC_V {
        return Some(ElfFault::Machine(header.machine));
    }
    if header.flags % 2 != 0 {
        return Some(ElfFault::Compressed(header.flags));
    }
    if header.count != 0 && header.entry_size != PROGRAM_HEADER_SIZE {
        return Some(ElfFault::EntrySize(header.entry_size));
    }
    None
}

/// The fault of the table of program headers.
fn table_fault(file: &[u8], header: &Header) -> Option<ElfFault>
    ensures { result ≡ table_fault file.now header.now }
{
    let end = header.table as u64 + PROGRAM_HEADER_SIZE as u64 * header.count as u64;
    if header.count != 0 && end > file.len() as u64 {
        return Some(ElfFault::TableOutside(end, file.len() as u64));
    }
    None
}

/// The fault of program header i.
fn program_header_fault(file: &[u8], i: u16) -> Option<ElfFault>
    requires header { 52 ≤ length file.now }
    requires inside { (header_of file.now).table + 32 * i + 32 ≤ length file.now }
    ensures { result ≡ program_header_fault file.now i }
{
    let header = program_header(file, i);
    if header.kind == INTERP {
        return Some(ElfFault::Interp(i));
    }
    if header.kind != LOAD {
        return None;
    }
    if header.filesz > header.memsz {
        return Some(ElfFault::SegmentSize(i));
    }
    if header.filesz != 0 && header.offset as u64 + header.filesz as u64 > file.len() as u64 {
        return Some(ElfFault::FileOutside(i));
    }
    None
}

/// The first fault of the program headers.
fn program_headers_fault(file: &[u8], count: u16) -> Option<ElfFault>
    requires header { 52 ≤ length file.now }
    requires inside { 0 < count → (header_of file.now).table + 32 * count ≤ length file.now }
    ensures { result ≡ first_some (map (program_header_fault file.now) (range_with_len 0 count)) }
{
    for i in 0..count {
        if let Some(fault) = program_header_fault(file, i) {
            return Some(fault);
        }
    }
    None
}

/// The first fault of the headers.
#[tactic(auto, unfolding(crate::specs::Faults::header_fault))]
fn header_fault(file: &[u8]) -> Option<ElfFault>
    ensures { result ≡ header_fault file.now }
{
    if (file.len() as u64) < HEADER_SIZE {
        return Some(ElfFault::Short(HEADER_SIZE, file.len() as u64));
    }
    if !has_magic(file) {
        return Some(ElfFault::Magic);
    }
    let header = header_of(file);
    if let Some(fault) = field_fault(&header) {
        return Some(fault);
    }
    if let Some(fault) = table_fault(file, &header) {
        return Some(fault);
    }
    program_headers_fault(file, header.count)
}

/// Looks at the headers of a file. It copies nothing and takes no memory.
///
/// Errors: the first fault of the headers, `Short` to `FileOutside`, and never one of the others.
pub fn segments(file: &[u8]) -> Result<Segments<'_>, ElfFault>
    ensures { MatchResult result (λ s. (s ≡ file.now) × (header_fault file.now ≡ None))
        (λ e. header_fault file.now ≡ Some e) }
{
    match header_fault(file) {
        Some(fault) => Err(fault),
        None => Ok(Segments { file }),
    }
}
