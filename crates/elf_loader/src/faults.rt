//! Why a file is refused.
use thiserror::Error;

/// Why a file is no image, or doesn't fit: the first test that fails, in the order of the variants. Each is shown by
/// its number and in words. `specs/Faults.antt` and `specs/Image.antt` say exactly when each comes.
#[derive(Clone, Copy, Debug, PartialEq, Eq, Error)]
pub enum ElfFault {
    /// Fewer bytes than the header has: the size of the header, and that of the file.
    #[error("E1: the header has {0} bytes, and the file {1}")]
    Short(u64, u64),
    /// The first four bytes aren't those of an ELF file.
    #[error("E2: the file doesn't begin as an ELF file")]
    Magic,
    /// The class isn't that of 32 bits.
    #[error("E3: the class is {0}, and not 1, that of 32 bits")]
    Class(u8),
    /// The encoding isn't little-endian.
    #[error("E4: the data encoding is {0}, and not 1, little-endian")]
    Data(u8),
    /// The version of the identification isn't 1.
    #[error("E5: the version is {0}, and not 1")]
    Version(u8),
    /// The type isn't that of an executable file.
    #[error("E6: the file type is {0}, and not 2, executable")]
    FileType(u16),
    /// The machine isn't RISC-V.
    #[error("E7: the machine is {0}, and not 243, RISC-V")]
    Machine(u16),
    /// Bit 0 of the flags is set: compressed instructions.
    #[error("E8: the flags are {0}: bit 0, compressed instructions, is set")]
    Compressed(u32),
    /// There are program headers, and they don't have 32 bytes each.
    #[error("E9: program headers have {0} bytes, and not 32")]
    EntrySize(u16),
    /// The table of program headers ends past the end of the file: its end, and the size of the file.
    #[error("E10: the table of program headers ends at byte {0}, and the file has {1}")]
    TableOutside(u64, u64),
    /// The program header of this number asks for an interpreter.
    #[error("E11: program header {0} asks for an interpreter")]
    Interp(u16),
    /// The segment of this number has more bytes in the file than in memory.
    #[error("E12: segment {0} has more bytes in the file than in memory")]
    SegmentSize(u16),
    /// The bytes of the segment of this number end past the end of the file.
    #[error("E13: the bytes of segment {0} end past the end of the file")]
    FileOutside(u16),
    /// The segment of this number lies outside the memory.
    #[error("E14: segment {0} lies outside the memory")]
    RamOutside(u16),
    /// There was no memory for loading.
    #[error("E15: there was no memory for loading")]
    NoMemory,
}
