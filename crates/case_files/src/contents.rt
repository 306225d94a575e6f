//! The bytes of the files that a case has, made step by step.
ghost use Rattle.case_files.specs.Bytes.{with_bytes_at};
ghost use Rattle.std.specs.Prelude.{◌≡◌, ◌+◌, ◌≤◌, IfOk, length, take, replicate};

use crate::definitions::{description, program};
use crate::fault::{Fault, at_line};
use crate::file::Cases;
use crate::image::file_of;
use crate::parts::{behind, halves, has};
use gen_image::generate;
use std::alloc::Global;

/// The most bytes that a file of a case may have, 64 MiB.
const MOST: usize = 67_108_864;

/// The flags of a part that may be read and fetched.
const FETCHED: &str = "5";

/// A file that a case has: its name and its bytes.
#[derive(Drop)]
pub struct CaseFile {
    pub name: String,
    pub bytes: Vec<u8>,
}

// Appends the bytes of hexadecimal digits, which may stand in groups.
fn add_hex(alloc: Global, bytes: &mut Vec<u8>, digits: &str, line: usize) -> Result<(), Fault> {
    for group in digits.split(' ') {
        match hex::decode(alloc, group) {
            Ok(more) if !more.is_empty() => bytes.extend_from_slice(more.as_slice())?,
            _ => return at_line(line, "bytes are of two hexadecimal digits each"),
        }
    }
    Ok(())
}

/// The word of eight hexadecimal digits.
pub(crate) fn word_of(digits: &str, line: usize) -> Result<u32, Fault> {
    let mut bytes = [0u8; 4];
    match hex::decode_to_slice(digits, &mut bytes) {
        Ok(()) => Ok(u32::from_be_bytes(bytes)),
        Err(_) => at_line(line, "a word is of eight hexadecimal digits"),
    }
}

/// The number of these decimal digits.
pub(crate) fn number_of(digits: &str, line: usize) -> Result<u32, Fault> {
    match digits.parse::<u32>() {
        Ok(number) => Ok(number),
        Err(_) => at_line(line, "a number below 2^32 stands here"),
    }
}

// The image of a program: `NAME`, `NAME flags N`, `NAME data HEX` or `NAME flags N data HEX`.
fn image_of(alloc: Global, cases: &Cases<'_>, said: &str, line: usize) -> Result<Vec<u8>, Fault> {
    let (said, digits) = halves(said, " data ");
    let (name, number) = halves(said, " flags ");
    let flags = number_of(if number.is_empty() { FETCHED } else { number }, line)?;
    let code = program(alloc, cases, name, line)?;
    let mut data = Vec::new(alloc);
    if !digits.is_empty() {
        add_hex(alloc, &mut data, digits, line)?;
    }
    Ok(file_of(alloc, code.as_slice(), flags, data.as_slice())?)
}

// The image that a seed and a number of blocks generate: `SEED BLOCKS`.
fn generated(alloc: Global, said: &str, line: usize) -> Result<Vec<u8>, Fault> {
    let (seed, blocks) = halves(said, " ");
    let Ok(seed) = seed.parse::<u64>() else {
        return at_line(line, "a seed is a number below 2^64");
    };
    let blocks = number_of(blocks, line)?;
    if blocks < 1 || blocks > 4096 {
        return at_line(line, "an image has 1 to 4096 blocks");
    }
    generate(alloc, seed, blocks).map_err(|_| Fault::Memory)
}

// Whether a text stands in another once.
fn stands_once(text: &str, part: &str) -> bool {
    has(text, part) && !has(halves(text, part).1, part)
}

// The text with `OLD => NEW` done: OLD stands in it once, and `\n` in NEW is a line's end.
fn changed(alloc: Global, bytes: &[u8], said: &str, line: usize) -> Result<Vec<u8>, Fault> {
    let (old, new) = halves(said, " =>");
    let text = std::str::from_utf8(bytes).unwrap_or("");
    if !has(said, " =>") || !stands_once(text, old) {
        return at_line(line, "a change is OLD => NEW of a text that has OLD once");
    }
    let new = behind(new, " ").unwrap_or(new);
    let new = new.replace(alloc, "\\n", "\n")?;
    Ok(text.replace(alloc, old, new.as_str())?.into_bytes())
}

// Writes these bytes over as many from an offset on.
fn paste(bytes: &mut [u8], at: usize, new: &[u8])
    requires { at + length new.now ≤ length bytes.old }
    ensures { bytes.new ≡ with_bytes_at bytes.old at new.now }
{
    bytes[at..at + new.len()].copy_from_slice(new);
}

// The bytes with others in place of as many from an offset on, which the file has.
fn put_at(alloc: Global, bytes: &[u8], at: usize, new: &[u8], line: usize) -> Result<Vec<u8>, Fault>
    ensures { IfOk result (λ put. put.items ≡ with_bytes_at bytes.now at new.now) }
{
    match bytes.len().checked_sub(new.len()) {
        Some(last) if at <= last => {
            let mut put = Vec::from_slice(alloc, bytes)?;
            paste(put.as_mut_slice(), at, new);
            Ok(put)
        }
        _ => at_line(line, "the file has no such bytes"),
    }
}

// The bytes with others in place of those from an offset on: `AT HEX`, or `AT WORD ..`, the lowest byte of each first.
fn replaced(
    alloc: Global,
    bytes: &[u8],
    said: &str,
    are_words: bool,
    line: usize,
) -> Result<Vec<u8>, Fault> {
    let (at, digits) = halves(said, " ");
    let at = number_of(at, line)? as usize;
    let mut new = Vec::new(alloc);
    if are_words {
        add_words(&mut new, digits, line)?;
    } else {
        add_hex(alloc, &mut new, digits, line)?;
    }
    put_at(alloc, bytes, at, new.as_slice(), line)
}

// Appends words, the lowest byte of each first.
fn add_words(bytes: &mut Vec<u8>, words: &str, line: usize) -> Result<(), Fault> {
    for word in words.split(' ') {
        bytes.extend_from_slice(&word_of(word, line)?.to_le_bytes())?;
    }
    Ok(())
}

// The first bytes, fewer than there are.
fn cut(alloc: Global, bytes: &[u8], length: usize, line: usize) -> Result<Vec<u8>, Fault>
    ensures { IfOk result (λ cut. cut.items ≡ take length bytes.now) }
{
    match bytes.get(..length) {
        Some(first) if length < bytes.len() => Ok(Vec::from_slice(alloc, first)?),
        _ => at_line(line, "the file isn't longer than that"),
    }
}

// The bytes, and behind them one byte as often as it takes to have so many.
fn filled_up(
    alloc: Global,
    bytes: &[u8],
    size: usize,
    byte: u8,
    line: usize,
) -> Result<Vec<u8>, Fault>
    ensures { IfOk result (λ filled. filled.items ≡ with_bytes_at (replicate size byte) 0 bytes.now) }
{
    if size > MOST || size <= bytes.len() {
        return at_line(
            line,
            "a file is filled up to more bytes, of at most 67108864",
        );
    }
    let mut filled = vec![in alloc; byte; size]?;
    paste(filled.as_mut_slice(), 0, bytes);
    Ok(filled)
}

// The byte of two hexadecimal digits.
fn byte_of(digits: &str, line: usize) -> Result<u8, Fault> {
    let mut bytes = [0u8; 1];
    match hex::decode_to_slice(digits, &mut bytes) {
        Ok(()) => Ok(bytes[0]),
        Err(_) => at_line(line, "a file is filled up with one byte"),
    }
}

// The bytes, cut to a length, or filled up to it: `N`, or `N of HEX`, a byte.
fn resized(alloc: Global, bytes: &[u8], said: &str, line: usize) -> Result<Vec<u8>, Fault> {
    let (digits, filler) = halves(said, " of ");
    let length = number_of(digits, line)? as usize;
    if filler.is_empty() {
        return cut(alloc, bytes, length, line);
    }
    filled_up(alloc, bytes, length, byte_of(filler, line)?, line)
}

// The bytes, and behind them those of hexadecimal digits.
fn with_hex(alloc: Global, bytes: &[u8], digits: &str, line: usize) -> Result<Vec<u8>, Fault> {
    let mut bytes = Vec::from_slice(alloc, bytes)?;
    add_hex(alloc, &mut bytes, digits, line)?;
    Ok(bytes)
}

/// The bytes of a file behind a step: what `program`, `generated`, `description` or `empty` makes, or the bytes before
/// with what `change`, `bytes`, `words`, `hex` or `length` does to them.
pub(crate) fn stepped(
    alloc: Global,
    cases: &Cases<'_>,
    bytes: &[u8],
    step: &str,
    line: usize,
) -> Result<Vec<u8>, Fault> {
    let (verb, said) = halves(step, " ");
    match verb {
        "program" => image_of(alloc, cases, said, line),
        "generated" => generated(alloc, said, line),
        "description" => Ok(description(alloc, cases, said, line)?.into_bytes()),
        "empty" => Ok(Vec::new(alloc)),
        "hex" => with_hex(alloc, bytes, said, line),
        "change" => changed(alloc, bytes, said, line),
        "bytes" => replaced(alloc, bytes, said, false, line),
        "words" => replaced(alloc, bytes, said, true, line),
        "length" => resized(alloc, bytes, said, line),
        _ => at_line(line, "nothing of a file is said so"),
    }
}
