//! Numbers in a slice of bytes, the lowest byte first.
ghost use Rattle.std.specs.Prelude.{◌≡◌, ◌≤◌, ◌<◌, ◌+◌, ◌%◌, length, slice_index, slice_range};
ghost use Rattle.rv_types.specs.Word.{from_le, to_le};
ghost use Rattle.byte_ram.specs.Access.{with_bytes_from};

use byteorder::{ByteOrder, LittleEndian};

/// The byte at a place, 0 past the end.
pub fn byte_or_zero(bytes: &[u8], place: usize) -> u8
    ensures { result ≡ slice_index bytes.now place }
{
    if place < bytes.len() { bytes[place] } else { 0 }
}

/// The number of the two bytes from a place on.
#[tactic(auto, using(crate::proofs::Numbers::number_at))]
pub fn half_at(bytes: &[u8], at: usize) -> u16
    requires { at + 2 ≤ length bytes.now }
    ensures { result ≡ from_le (slice_range bytes.now at (at + 2)) }
{
    LittleEndian::read_u16(&bytes[at..])
}

/// The number of the four bytes from a place on.
#[tactic(auto, using(crate::proofs::Numbers::number_at))]
pub fn word_at(bytes: &[u8], at: usize) -> u32
    requires { at + 4 ≤ length bytes.now }
    ensures { result ≡ from_le (slice_range bytes.now at (at + 4)) }
{
    LittleEndian::read_u32(&bytes[at..])
}

/// Writes these bytes over those from a place on.
pub(crate) fn paste(bytes: &mut [u8], at: usize, new: &[u8])
    requires { at + length new.now ≤ length bytes.old }
    ensures { bytes.new ≡ with_bytes_from bytes.old at new.now }
{
    bytes[at..at + new.len()].copy_from_slice(new);
}

/// Writes the lowest byte of a number over the byte at a place.
pub(crate) fn put_byte(bytes: &mut [u8], at: usize, value: u32)
    requires { at + 1 ≤ length bytes.old }
    ensures { bytes.new ≡ with_bytes_from bytes.old at (to_le 1 value) }
{
    bytes[at] = (value % 256) as u8;
}

/// Writes the lowest two bytes of a number over those from a place on.
pub(crate) fn put_half(bytes: &mut [u8], at: usize, value: u32)
    requires { at + 2 ≤ length bytes.old }
    ensures { bytes.new ≡ with_bytes_from bytes.old at (to_le 2 value) }
{
    let mut two = [0u8; 2];
    LittleEndian::write_u16(&mut two, (value % 65536) as u16);
    paste(bytes, at, &two);
}

/// Writes a number's four bytes over those from a place on.
pub(crate) fn put_word(bytes: &mut [u8], at: usize, value: u32)
    requires { at + 4 ≤ length bytes.old }
    ensures { bytes.new ≡ with_bytes_from bytes.old at (to_le 4 value) }
{
    let mut four = [0u8; 4];
    LittleEndian::write_u32(&mut four, value);
    paste(bytes, at, &four);
}
