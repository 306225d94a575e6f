//! The fields of the header and of the program headers (ELF specification, "ELF Header" and "Program Header").
ghost use Rattle.std.specs.Prelude.{◌≡◌, ◌≤◌, ◌+◌, ◌*◌, length};
ghost use Rattle.elf_loader.specs.Fields.{has_magic, header_of, program_header};

use byte_ram::{half_at, word_at};

/// The first bytes of every ELF file.
pub(crate) const MAGIC: [u8; 4] = [0x7f, 0x45, 0x4c, 0x46];

/// The number of bytes of the header.
pub(crate) const HEADER_SIZE: u64 = 52;

/// The number of bytes of a program header.
pub(crate) const PROGRAM_HEADER_SIZE: u16 = 32;

/// The class of files of 32 bits.
pub(crate) const CLASS_32: u8 = 1;

/// The encoding of numbers with their lowest byte first.
pub(crate) const LITTLE_ENDIAN: u8 = 1;

/// The one version of ELF that there is.
pub(crate) const VERSION: u8 = 1;

/// The type of executable files.
pub(crate) const EXECUTABLE: u16 = 2;

/// RISC-V's number as a machine.
pub(crate) const RISC_V: u16 = 243;

/// The type of the program header of a segment to be loaded.
pub(crate) const LOAD: u32 = 1;

/// The type of the program header that names an interpreter.
pub(crate) const INTERP: u32 = 3;

/// What is read of the header: `kind` is the type of the file, `table` the place of the program headers in it,
/// `entry_size` the size of one of them and `count` their number.
#[derive(Clone, Copy)]
pub(crate) struct Header {
    pub class: u8,
    pub encoding: u8,
    pub version: u8,
    pub kind: u16,
    pub machine: u16,
    pub entry: u32,
    pub table: u32,
    pub flags: u32,
    pub entry_size: u16,
    pub count: u16,
}

/// What is read of a program header: `offset` is the place of the segment's bytes in the file, `filesz` their number,
/// `memsz` the number of bytes in memory.
#[derive(Clone, Copy)]
pub(crate) struct ProgramHeader {
    pub kind: u32,
    pub offset: u32,
    pub vaddr: u32,
    pub filesz: u32,
    pub memsz: u32,
    pub flags: u32,
}

/// Whether the file begins as every ELF file does.
#[tactic(auto, unfolding(crate::specs::Fields::has_magic))]
pub(crate) fn has_magic(file: &[u8]) -> bool
    ensures { result ≡ has_magic file.now }
{
    file.starts_with(&MAGIC)
}

/// The fields of a file's header, its first 52 bytes.
#[tactic(auto, unfolding(crate::specs::Fields::half, crate::specs::Fields::word))]
pub(crate) fn header_of(file: &[u8]) -> Header
    requires { 52 ≤ length file.now }
    ensures { result ≡ header_of file.now }
{
    Header {
        class: file[4],
        encoding: file[5],
        version: file[6],
        kind: half_at(file, 16),
        machine: half_at(file, 18),
        entry: word_at(file, 24),
        table: word_at(file, 28),
        flags: word_at(file, 36),
        entry_size: half_at(file, 42),
        count: half_at(file, 44),
    }
}

/// Program header i, which lies in the file.
#[tactic(auto, unfolding(crate::specs::Fields::word))]
pub(crate) fn program_header(file: &[u8], i: u16) -> ProgramHeader
    requires header { 52 ≤ length file.now }
    requires inside { (header_of file.now).table + 32 * i + 32 ≤ length file.now }
    ensures { result ≡ program_header file.now i }
{
    let at = header_of(file).table as usize + PROGRAM_HEADER_SIZE as usize * i as usize;
    ProgramHeader {
        kind: word_at(file, at),
        offset: word_at(file, at + 4),
        vaddr: word_at(file, at + 8),
        filesz: word_at(file, at + 16),
        memsz: word_at(file, at + 20),
        flags: word_at(file, at + 24),
    }
}
