//! Images: an ELF header, a program header for code and one for data, if there is any, and the words.
use std::alloc::{AllocError, Global};

/// The address of the first instruction.
const CODE: u32 = 0x0001_0000;

/// The address of the first byte of data.
const DATA: u32 = 0x0001_fff0;

/// The flags of a part that may be read and written.
const WRITTEN: u32 = 6;

// Appends words, each with the lowest byte first.
fn add_words(image: &mut Vec<u8>, words: &[u32]) -> Result<(), AllocError> {
    for word in words {
        image.extend_from_slice(&word.to_le_bytes())?;
    }
    Ok(())
}

// Appends the file's header, with so many program headers. Type 2, machine 243; version 1, entry, program headers at
// 52, no section headers, no flags; a header of 52 bytes, program headers of 32 bytes, no section headers.
fn add_header(image: &mut Vec<u8>, parts: u32) -> Result<(), AllocError> {
    image.extend_from_slice(&[0x7f, b'E', b'L', b'F', 1, 1, 1, 0])?;
    add_words(image, &[0, 0, 0x00f3_0002, 1, CODE, 52, 0, 0])?;
    add_words(image, &[52 + (32 << 16), parts, 0])
}

// How many bytes there are, of which no file has so many.
fn size_of(bytes: usize) -> u32 {
    u32::try_from(bytes).unwrap_or(u32::MAX)
}

/// The file of this code, whose part has these flags, and of these bytes of data, 16 bytes below the end of the
/// example's memory, if there are any.
pub(crate) fn file_of(
    alloc: Global,
    code: &[u32],
    flags: u32,
    data: &[u8],
) -> Result<Vec<u8>, AllocError> {
    let mut file = Vec::new(alloc);
    let size = size_of(code.len()).saturating_mul(4);
    if data.is_empty() {
        add_header(&mut file, 1)?;
        add_words(&mut file, &[1, 84, CODE, CODE, size, size, flags, 4])?;
    } else {
        let more = size_of(data.len());
        let place = size.saturating_add(116);
        add_header(&mut file, 2)?;
        add_words(&mut file, &[1, 116, CODE, CODE, size, size, flags, 4])?;
        add_words(&mut file, &[1, place, DATA, DATA, more, more, WRITTEN, 4])?;
    }
    add_words(&mut file, code)?;
    file.extend_from_slice(data)?;
    Ok(file)
}
