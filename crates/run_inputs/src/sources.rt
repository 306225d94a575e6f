//! The images of a command: where each comes from, its bytes, and the image that is loaded from them.
ghost use Rattle.std.specs.Prelude.{◌≡◌, ◌<◌, ◌^◌, Ok, Result, MatchResult, IfOk, All, length};
ghost use Rattle.elf_loader.specs.Image.{image_of};
ghost use Rattle.run_inputs.specs.Loaded.{image_text};
ghost use Rattle.tool_io.specs.Outside.{SameContents};
ghost use Rattle.run_inputs.specs.inner.Input.{image_from, ReadsBytes, ReadsImage, LoadRefused, refusal_of};
ghost use Rattle.run_inputs.specs.Input.{base_of, size_of, misaligned_of, HoldsBytes};

use crate::reading::{IMAGE_MAX, Unread, read_file};
use crate::refusal::{Refusal, Which};
use crate::region::Region;
use byte_ram::Ram;
use elf_loader::{ElfFault, Image, load, segments};
use gen_image::generate;
use machine_desc::Desc;
use std::alloc::Global;
use tool_io::{Content, Files};
use tool_words::Blocks;

/// Where an image comes from.
#[derive(Clone, Copy, Debug)]
pub enum ImageSource<'a> {
    /// The file of this name.
    File(&'a str),
    /// A seed and a number of blocks, which generate it.
    Seed(u64, Blocks),
}

// The bytes of an image.
fn bytes_of<F: Files>(
    alloc: Global,
    source: ImageSource<'_>,
    which: Which,
    files: &mut F,
) -> Result<Content, Refusal>
    ensures answer { ReadsBytes which (image_from source.entry) (F.shelf files.old) (F.shelf files.new) result }
    ensures stays { SameContents (F.shelf files.old) (F.shelf files.new) }
{
    match source {
        ImageSource::File(name) => match read_file(alloc, name, IMAGE_MAX, files) {
            Ok(file) => Ok(file),
            Err(Unread::Failed) => Err(Refusal::ReadImage(which)),
            Err(Unread::TooLong) => Err(Refusal::ImageTooLong(which)),
            Err(Unread::NoMemory) => Err(Refusal::Memory),
        },
        ImageSource::Seed(seed, blocks) => match generate(alloc, seed, blocks.count) {
            Ok(file) => Ok(Content::new(file)),
            Err(_) => Err(Refusal::Memory),
        },
    }
}

// The refusal of a fault of loading: want of memory is one of its own.
fn refusal_of(which: Which, fault: ElfFault) -> Refusal
    ensures { result ≡ refusal_of which fault }
{
    match fault {
        ElfFault::NoMemory => Refusal::Memory,
        _ => Refusal::Image(which, fault),
    }
}

// The image of a file in memory that is all 0 before.
fn image_in(alloc: Global, file: &[u8], which: Which, region: Region) -> Result<Image, Refusal>
    ensures { MatchResult result
        (λ i. image_of file.now region.base region.size region.misaligned ≡ Ok (image_text i))
        (λ e. LoadRefused which file.now region.base region.size region.misaligned e) }
{
    let segments = match segments(file) {
        Ok(segments) => segments,
        Err(fault) => return Err(Refusal::Image(which, fault)),
    };
    let ram = match Ram::new(alloc, region.base, region.size, region.misaligned) {
        Ok(ram) => ram,
        Err(_) => return Err(Refusal::Memory),
    };
    match load(alloc, &segments, ram) {
        Ok(image) => Ok(image),
        Err(fault) => Err(refusal_of(which, fault)),
    }
}

// Bytes are bytes, each below 2^8. It reads none: it lends the proof what their type says.
fn are_bytes(bytes: &[u8])
    ensures { All (λ b. b < 2 ^ 8) bytes.now }
{}

// The image of a file in the memory of a run.
fn load_image(
    alloc: Global,
    file: &[u8],
    which: Which,
    desc: Option<Desc>,
) -> Result<Image, Refusal>
    ensures loads { MatchResult result
        (λ i. image_of file.now (base_of desc) (size_of desc) (misaligned_of desc) ≡ Ok (image_text i))
        (λ e. LoadRefused which file.now (base_of desc) (size_of desc) (misaligned_of desc) e) }
    ensures bytes { IfOk result (λ i. HoldsBytes (image_text i)) }
{
    match image_in(alloc, file, which, Region::of(desc)) {
        Ok(image) => {
            are_bytes(image.ram.bytes());
            Ok(image)
        }
        Err(refusal) => Err(refusal),
    }
}

/// The image from there, in the memory of this description.
pub fn read_image<F: Files>(
    alloc: Global,
    source: ImageSource<'_>,
    which: Which,
    desc: Option<Desc>,
    files: &mut F,
) -> Result<Image, Refusal>
    ensures answer { ReadsImage which desc (image_from source.entry) (F.shelf files.old) (F.shelf files.new) result }
    ensures base { IfOk result (λ i. i.ram.base ≡ base_of desc) }
    ensures size { IfOk result (λ i. length i.ram.bytes ≡ size_of desc) }
    ensures bytes { IfOk result (λ i. HoldsBytes (image_text i)) }
    ensures stays { SameContents (F.shelf files.old) (F.shelf files.new) }
{
    let file = bytes_of(alloc, source, which, files)?;
    load_image(alloc, file.as_slice(), which, desc)
}
