//! Which ranges of secret bytes an image may have: those within its memory that touch no code.
ghost use Rattle.std.specs.Prelude.{◌≡◌, ◌+◌, ◌≤◌, ◌^◌, None, Some, MatchResult, IsTrue};
ghost use Rattle.rv_types.specs.Memory.{in_ram};
ghost use Rattle.elf_loader.specs.inner.Code.{word_at};
ghost use Rattle.run_inputs.specs.Loaded.{image_text};
ghost use Rattle.secrets_top.specs.Ranges.{in_code, touches_code, range_fault, first_faulty};

use byte_ram::Ram;
use elf_loader::{Code, Image};
use secret_marks::SecretRange;
use thiserror::Error;

/// What is wrong with a range of secret bytes.
#[derive(Clone, Copy, Debug, PartialEq, Eq)]
pub(crate) enum RangeFault {
    /// The range doesn't lie within memory.
    Outside,
    /// One of the range's bytes is one of a word that may be fetched.
    Code,
}

/// The first range of secret bytes with a fault.
#[derive(Clone, Copy, Debug, PartialEq, Eq, Error)]
#[error("a range of secret bytes isn't within memory, or touches code")]
pub(crate) struct FaultyRange {
    /// The number of the range among the ranges, counted from 0.
    pub number: u64,
    /// What is wrong with the range.
    pub fault: RangeFault,
}

// Whether a byte is one of a word that may be fetched.
fn in_code(code: &Code, addr: u32) -> bool
    ensures { result ≡ in_code (word_at code.now) addr }
{
    code.word(addr - addr % 4).is_some()
}

// Whether one of so many bytes from an address on is one of a word that may be fetched.
fn touches_code(code: &Code, range: &SecretRange) -> bool
    requires { range.now.addr + range.now.bytes ≤ 2 ^ 32 }
    ensures { result ≡ touches_code (word_at code.now) range.now }
{
    for place in 0..range.bytes {
        if in_code(code, range.addr + place) {
            return true;
        }
    }
    false
}

// Whether all bytes of a range lie in memory; then the address behind them fits, too.
fn lies_within(ram: &Ram, range: &SecretRange) -> bool
    ensures value { result ≡ in_ram ram.now range.now.addr range.now.bytes }
    ensures fits { IsTrue result → range.now.addr + range.now.bytes ≤ 2 ^ 32 }
{
    let base = ram.base() as u64;
    let end = base + ram.size() as u64;
    let addr = range.addr as u64;
    base <= addr && addr + range.bytes as u64 <= end
}

// What is wrong with a range.
fn range_fault(image: &Image, range: &SecretRange) -> Option<RangeFault>
    ensures { result ≡ range_fault (image_text image.now) range.now }
{
    if !lies_within(&image.ram, range) {
        return Some(RangeFault::Outside);
    }
    if touches_code(&image.code, range) {
        return Some(RangeFault::Code);
    }
    None
}

/// Whether each range lies within an image's memory and touches no code. Error: the first that doesn't.
pub(crate) fn check_ranges(image: &Image, secret: &[SecretRange]) -> Result<(), FaultyRange>
    ensures { MatchResult result
        (λ _. first_faulty (image_text image.now) 0 secret.now ≡ None)
        (λ faulty. first_faulty (image_text image.now) 0 secret.now ≡ Some faulty) }
{
    for (number, range) in secret.iter().enumerate() {
        if let Some(fault) = range_fault(image, range) {
            return Err(FaultyRange {
                number: number as u64,
                fault,
            });
        }
    }
    Ok(())
}
