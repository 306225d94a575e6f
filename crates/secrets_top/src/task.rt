//! The run that is asked of, with all that it reads.
ghost use Rattle.std.specs.Prelude.{◌≡◌, Result, IfOk};
ghost use Rattle.std.specs.Option.{option_map};
ghost use Rattle.run_inputs.specs.Loaded.{image_text};
ghost use Rattle.secret_words.specs.Words.{core_run, path_run};
ghost use Rattle.secret_words.specs.inner.Words.{run_text};
ghost use Rattle.tool_io.specs.Outside.{SameContents};
ghost use Rattle.secrets_top.specs.inner.Top.{image_in, InMemory, ReadsTask};

use elf_loader::Image;
use run_inputs::{Described, ImageSource, Refusal, Which, read_described, read_image, read_named};
use secret_words::RunWanted;
use std::alloc::Global;
use tool_io::Files;

/// The run that is asked of, with all that it reads.
#[derive(Drop)]
pub(crate) enum Task {
    /// The run of a core, of at most so many cycles.
    Core { read: Described, cycles: u32 },
    /// The path, which is the run of the instruction set, of at most so many steps.
    Path { image: Image, steps: u32 },
}

impl Task {
    /// The image.
    pub(crate) fn image(&self) -> &Image
        ensures { image_text result.now ≡ image_in self.now }
    {
        match self {
            Task::Core { read, .. } => &read.image,
            Task::Path { image, .. } => image,
        }
    }
}

// What a run of a core needs: reads its description, and then the image under it.
fn read_core<F: Files>(
    alloc: Global,
    image: &str,
    description: &str,
    cycles: u32,
    files: &mut F,
) -> Result<Task, Refusal>
    ensures answer { ReadsTask image.now (core_run description.now cycles)
        (F.shelf files.old) (F.shelf files.new) result }
    ensures fits { IfOk result InMemory }
    ensures stays { SameContents (F.shelf files.old) (F.shelf files.new) }
{
    let read = read_described(alloc, description, ImageSource::File(image), files)?;
    Ok(Task::Core { read, cycles })
}

// What the path needs: reads a description, if one is named, and then the image.
fn read_path<F: Files>(
    alloc: Global,
    image: &str,
    description: Option<&str>,
    steps: u32,
    files: &mut F,
) -> Result<Task, Refusal>
    ensures answer { ReadsTask image.now (path_run (option_map (λ t. t.now) description.entry) steps)
        (F.shelf files.old) (F.shelf files.new) result }
    ensures fits { IfOk result InMemory }
    ensures stays { SameContents (F.shelf files.old) (F.shelf files.new) }
{
    let desc = read_named(alloc, description, files)?;
    let image = read_image(alloc, ImageSource::File(image), Which::First, desc, files)?;
    Ok(Task::Path { image, steps })
}

/// Reads all that a run needs: its description, if one is named, and then the image. Nothing is read behind what is
/// refused. Errors: those of `read_named` and `read_image`, before anything is written.
pub(crate) fn read_task<F: Files>(
    alloc: Global,
    image: &str,
    run: RunWanted<'_>,
    files: &mut F,
) -> Result<Task, Refusal>
    ensures answer { ReadsTask image.now (run_text run.entry) (F.shelf files.old) (F.shelf files.new) result }
    ensures fits { IfOk result InMemory }
    ensures stays { SameContents (F.shelf files.old) (F.shelf files.new) }
{
    match run {
        RunWanted::Core {
            description,
            cycles,
        } => read_core(alloc, image, description, cycles, files),
        RunWanted::Path { description, steps } => {
            read_path(alloc, image, description, steps, files)
        }
    }
}
