//! Images: an ELF header, a program header for the code and one for another part, and their words.
use byte_ram::Ram;
use elf_loader::{Image, load, segments};
use std::alloc::Global;
use std::test::Fail;

// The first address of memory, where code begins.
const CODE: u32 = 0x0001_0000;

// How many bytes memory has.
const SIZE: u32 = 0x0001_0000;

// The address of a program's data, 16 bytes below the end of memory.
const DATA: u32 = 0x0001_fff0;

// Where code begins in the file, behind a header of 52 bytes and two of 32.
const START: u32 = 116;

// A part that may be read and fetched, and one that may be read and written.
const FETCHED: u32 = 5;

const WRITTEN: u32 = 6;

// Appends words, each with the lowest byte first.
fn add_words(file: &mut Vec<u8>, words: &[u32]) -> Result<(), Fail> {
    for word in words {
        file.extend_from_slice(&word.to_le_bytes())?;
    }
    Ok(())
}

// Appends the file's header. Type 2, machine 243; version 1, entry, program headers at 52, no section headers, no
// flags; a header of 52 bytes, two program headers of 32 bytes, no section headers.
fn add_header(file: &mut Vec<u8>) -> Result<(), Fail> {
    file.extend_from_slice(&[0x7f, b'E', b'L', b'F', 1, 1, 1, 0])?;
    add_words(file, &[0, 0])?;
    add_words(
        file,
        &[0x00f3_0002, 1, CODE, 52, 0, 0, 52 + (32 << 16), 2, 0],
    )
}

// How many bytes words have; there are few.
fn size_of(words: &[u32]) -> u32 {
    u32::try_from(words.len()).unwrap_or(0).saturating_mul(4)
}

// The file of this code and these words of data.
fn file_of(alloc: Global, code: &[u32], data: &[u32]) -> Result<Vec<u8>, Fail> {
    let mut file = Vec::new(alloc);
    let size = size_of(code);
    let more = size_of(data);
    let place = START.saturating_add(size);
    add_header(&mut file)?;
    add_words(&mut file, &[1, START, CODE, CODE, size, size, FETCHED, 4])?;
    add_words(&mut file, &[1, place, DATA, DATA, more, more, WRITTEN, 4])?;
    add_words(&mut file, code)?;
    add_words(&mut file, data)?;
    Ok(file)
}

// The image of a file in 64 KiB of memory, with accesses at any address or not.
fn loaded(alloc: Global, file: &[u8], misaligned: bool) -> Result<Image, Fail> {
    let ram = Ram::new(alloc, CODE, SIZE, misaligned)?;
    Ok(load(alloc, &segments(file)?, ram)?)
}

/// The image of this code alone, which begins with its first word, with accesses at any address or not.
pub fn code_image(alloc: Global, misaligned: bool, code: &[u32]) -> Result<Image, Fail> {
    let file = file_of(alloc, code, &[])?;
    loaded(alloc, file.as_slice(), misaligned)
}

/// The image of a program, which begins with its first word, and of its data.
pub fn program_image(alloc: Global, code: &[u32], data: &[u32]) -> Result<Image, Fail> {
    let file = file_of(alloc, code, data)?;
    loaded(alloc, file.as_slice(), false)
}
