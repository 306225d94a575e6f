//! Where the two runs of a comparison begin.
ghost use Rattle.std.specs.Prelude.{◌≡◌, IfOk, length};
ghost use Rattle.pair_run.specs.inner.Images.{CoreStarts, start_of, path_of};

use byte_ram::Ram;
use core_cycle::Core;
use elf_loader::Image;
use isa_step::Isa;
use machine_desc::Desc;
use rename_taint::RenameTaint;
use rv_types::NoMemory;
use std::alloc::Global;

/// The entry of an image, and its memory as it is at first. It has no code: a core holds that.
#[derive(Drop)]
pub(crate) struct Start {
    pub entry: u32,
    pub ram: Ram,
}

impl Start {
    /// Where the runs of an image begin. It takes a byte for each byte of memory; the one error is want of them.
    pub fn of(alloc: Global, image: &Image) -> Result<Start, NoMemory>
        ensures { IfOk result (λ s. s ≡ start_of image.now) }
    {
        let ram = image.ram.copy(alloc)?;
        Ok(Start {
            entry: image.entry,
            ram,
        })
    }
}

/// Where the runs of two images begin, and the instruction set's state where the first one begins, which goes its path.
#[derive(Drop)]
pub(crate) struct Starts {
    pub one: Start,
    pub two: Start,
    pub path: Isa,
}

impl Starts {
    /// Where the runs of these images begin. It copies both memories, and the first image for the path; the one error
    /// is want of memory.
    pub fn of(alloc: Global, one: &Image, two: &Image) -> Result<Starts, NoMemory>
        ensures one { IfOk result (λ s. s.one ≡ start_of one.now) }
        ensures two { IfOk result (λ s. s.two ≡ start_of two.now) }
        ensures path { IfOk result (λ s. s.path ≡ path_of one.now) }
    {
        let path = Isa::new(one.copy(alloc)?);
        Ok(Starts {
            one: Start::of(alloc, one)?,
            two: Start::of(alloc, two)?,
            path,
        })
    }
}

/// The two cores of a comparison, before their first cycle.
#[derive(Drop)]
pub(crate) struct Cores<R: RenameTaint + Drop> {
    pub first: Core<R>,
    pub second: Core<R>,
}

impl<R: RenameTaint + Drop> Cores<R> {
    /// The cores of a description before their first cycles, with the images in their memories. They take all the
    /// memory that two runs take; the one error is want of it.
    pub fn of(alloc: Global, desc: &Desc, one: Image, two: Image) -> Result<Cores<R>, NoMemory>
        requires base { one.ram.base ≡ desc.now.ram_base }
        requires size { length one.ram.bytes ≡ desc.now.ram_size }
        requires base2 { two.ram.base ≡ desc.now.ram_base }
        requires size2 { length two.ram.bytes ≡ desc.now.ram_size }
        ensures first { IfOk result (λ c. CoreStarts desc.now one c.first) }
        ensures second { IfOk result (λ c. CoreStarts desc.now two c.second) }
    {
        let first = Core::new(alloc, desc, one)?;
        Ok(Cores {
            first,
            second: Core::new(alloc, desc, two)?,
        })
    }
}
