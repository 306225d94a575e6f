//! The instruction set's state in which a run begins.
ghost use Rattle.std.specs.Prelude.{IfOk};
ghost use Rattle.run_inputs.specs.Loaded.{image_text};
ghost use Rattle.stt_top.specs.inner.Running.{Begins};

use byte_ram::Ram;
use elf_loader::Image;
use isa_step::Isa;
use rv_types::NoMemory;
use std::alloc::Global;

/// The instruction set's state, and memory as it was when the run began.
#[derive(Drop)]
pub(crate) struct IsaRun {
    pub isa: Isa,
    pub before: Ram,
}

impl IsaRun {
    /// The state in which an image begins. All memory that a run takes is taken here. Error: there was no memory.
    pub fn of(alloc: Global, image: Image) -> Result<IsaRun, NoMemory>
        ensures { IfOk result (λ m. Begins (image_text image) m.isa m.before) }
    {
        let before = image.ram.copy(alloc)?;
        Ok(IsaRun {
            isa: Isa::new(image),
            before,
        })
    }
}
