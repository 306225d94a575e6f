//! How cores are made of images.
ghost use Rattle.std.specs.Prelude.{◌≡◌, IfOk};
ghost use Rattle.elf_loader.specs.inner.Code.{word_at};
ghost use Rattle.run_inputs.specs.Loaded.{Fits};
ghost use Rattle.run_inputs.specs.Loaded.{image_text};
ghost use Rattle.stt_top.specs.inner.Running.{Starts};

use elf_loader::Image;
use machine_desc::Desc;
use pair_run::Pair;
use rename_taint::ByTable;
use rv_types::NoMemory;
use std::alloc::Global;

/// The core that the program runs: the written machine by its parts, whose registers are renamed by a table.
pub(crate) type Core = core_cycle::Core<ByTable>;

/// The core where the image begins. All memory that it takes is taken here. Error: there was no memory.
pub(crate) fn build(alloc: Global, desc: &Desc, image: Image) -> Result<Core, NoMemory>
    requires { Fits desc.now image.ram }
    ensures { IfOk result (λ c. Starts (image_text image) desc.now c.desc (word_at c.code) c.machine) }
{
    Core::new(alloc, desc, image)
}

/// The cores where two images begin. All memory that they take is taken here. Error: there was no memory.
pub(crate) fn build_pair(
    alloc: Global,
    desc: &Desc,
    one: Image,
    two: Image,
) -> Result<Pair<ByTable>, NoMemory>
    requires fits { Fits desc.now one.ram }
    requires fits2 { Fits desc.now two.ram }
    ensures { IfOk result (λ p. p ≡ record { desc = desc.now; one = one; two = two }) }
{
    Pair::new(alloc, desc, one, two)
}
