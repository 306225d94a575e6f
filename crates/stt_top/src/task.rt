//! What a command asks for, with all that it reads.
ghost use Rattle.std.specs.Prelude.{Result, IfOk};
ghost use Rattle.std.specs.Option.{option_map};
ghost use Rattle.tool_io.specs.Outside.{SameContents};
ghost use Rattle.tool_words.specs.Words.{isa_text, pair_text};
ghost use Rattle.tool_words.specs.inner.Words.{command_text};
ghost use Rattle.stt_top.specs.inner.Work.{task_text, InMemory};
ghost use Rattle.stt_top.specs.inner.Top.{ReadsTask};

use elf_loader::Image;
use machine_desc::Desc;
use run_inputs::{
    Described, ImageSource, Refusal, Which, read_described, read_description, read_image,
    read_named,
};
use std::alloc::Global;
use tool_io::Files;
use tool_words::Command;

/// What a command asks for.
#[derive(Drop)]
pub(crate) enum Task {
    /// The instruction set's run, as a report.
    Isa {
        image: Image,
        steps: u64,
    },
    /// The machine's run, as a report.
    Report {
        read: Described,
        cycles: u32,
    },
    /// The machine's run, as a trace.
    Trace {
        read: Described,
        cycles: u32,
    },
    /// The machine's runs of two images, compared.
    Pair {
        desc: Desc,
        one: Image,
        two: Image,
        cycles: u32,
    },
}

// What `pair` asks for: reads a description and then two images under it, the second one only where the first has no
// fault.
fn read_pair<F: Files>(
    alloc: Global,
    description: &str,
    image: &str,
    image2: &str,
    cycles: u32,
    files: &mut F,
) -> Result<Task, Refusal>
    ensures answer { ReadsTask (pair_text description.now image.now image2.now cycles)
        (F.shelf files.old) (F.shelf files.new) result }
    ensures fits { IfOk result (λ t. InMemory (task_text t)) }
    ensures stays { SameContents (F.shelf files.old) (F.shelf files.new) }
{
    let first = ImageSource::File(image);
    let second = ImageSource::File(image2);
    let desc = read_description(alloc, description, files)?;
    let one = read_image(alloc, first, Which::First, Some(desc), files)?;
    let two = read_image(alloc, second, Which::Second, Some(desc), files)?;
    Ok(Task::Pair {
        desc,
        one,
        two,
        cycles,
    })
}

// What `isa` asks for: reads a description, if one is named, and then the image.
fn read_isa<F: Files>(
    alloc: Global,
    image: &str,
    steps: u64,
    description: Option<&str>,
    files: &mut F,
) -> Result<Task, Refusal>
    ensures answer { ReadsTask (isa_text image.now steps (option_map (λ t. t.now) description.entry))
        (F.shelf files.old) (F.shelf files.new) result }
    ensures fits { IfOk result (λ t. InMemory (task_text t)) }
    ensures stays { SameContents (F.shelf files.old) (F.shelf files.new) }
{
    let desc = read_named(alloc, description, files)?;
    let image = read_image(alloc, ImageSource::File(image), Which::First, desc, files)?;
    Ok(Task::Isa { image, steps })
}

/// Reads all that a command needs: its description, if one is named, and then its images in their order. Nothing is
/// read behind what is refused.
pub(crate) fn read_task<F: Files>(
    alloc: Global,
    command: Command<'_>,
    files: &mut F,
) -> Result<Task, Refusal>
    ensures answer { ReadsTask (command_text command.entry) (F.shelf files.old) (F.shelf files.new) result }
    ensures fits { IfOk result (λ t. InMemory (task_text t)) }
    ensures stays { SameContents (F.shelf files.old) (F.shelf files.new) }
{
    match command {
        Command::Isa {
            image,
            steps,
            description,
        } => read_isa(alloc, image, steps, description, files),
        Command::Run {
            description,
            image,
            cycles,
        } => {
            let read = read_described(alloc, description, ImageSource::File(image), files)?;
            Ok(Task::Report { read, cycles })
        }
        Command::Trace {
            description,
            image,
            cycles,
        } => {
            let read = read_described(alloc, description, ImageSource::File(image), files)?;
            Ok(Task::Trace { read, cycles })
        }
        Command::Bench {
            description,
            seed,
            blocks,
            cycles,
        } => {
            let read = read_described(alloc, description, ImageSource::Seed(seed, blocks), files)?;
            Ok(Task::Report { read, cycles })
        }
        Command::Pair {
            description,
            image,
            image2,
            cycles,
        } => read_pair(alloc, description, image, image2, cycles, files),
    }
}
