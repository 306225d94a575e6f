//! What a task comes to. All memory is taken before the first step or cycle, and nothing is written before.
ghost use Rattle.run_inputs.specs.Loaded.{Fits};
ghost use Rattle.run_inputs.specs.Loaded.{image_text};
ghost use Rattle.stt_top.specs.Work.{isa_task, report_task, trace_task, pair_task};
ghost use Rattle.stt_top.specs.inner.Work.{task_text, InMemory, Performs};

use crate::building::{build, build_pair};
use crate::loading::IsaRun;
use crate::outcome::{Ended, compared_of};
use crate::task::Task;
use crate::{clocking, running};
use elf_loader::Image;
use machine_desc::Desc;
use pair_run::write_comparison;
use run_inputs::{Described, Refusal};
use std::alloc::Global;
use tool_io::Sink;

// The instruction set's run of an image, as a report.
fn isa<O: Sink>(alloc: Global, image: Image, steps: u64, out: &mut O) -> Result<Ended, Refusal>
    ensures { Performs (isa_task (image_text image) steps) (O.told out.old) (O.told out.new) result }
{
    let mut run = IsaRun::of(alloc, image)?;
    let ended = running::report(&mut run, steps, out)?;
    Ok(ended)
}

// The machine's run of an image, as a report.
fn report<O: Sink>(
    alloc: Global,
    read: Described,
    cycles: u32,
    out: &mut O,
) -> Result<Ended, Refusal>
    requires { Fits read.desc read.image.ram }
    ensures { Performs (report_task read.desc (image_text read.image) cycles) (O.told out.old) (O.told out.new) result }
{
    let Described { desc, image } = read;
    let before = image.ram.copy(alloc)?;
    let mut core = build(alloc, &desc, image)?;
    let ended = clocking::report(&mut core, &before, cycles, out)?;
    Ok(ended)
}

// The machine's run of an image, as a trace, cycle by cycle.
fn trace<O: Sink>(
    alloc: Global,
    read: Described,
    cycles: u32,
    out: &mut O,
) -> Result<Ended, Refusal>
    requires { Fits read.desc read.image.ram }
    ensures { Performs (trace_task read.desc (image_text read.image) cycles) (O.told out.old) (O.told out.new) result }
{
    let Described { desc, image } = read;
    let mut core = build(alloc, &desc, image)?;
    let ended = clocking::trace(&mut core, cycles, out)?;
    Ok(ended)
}

// The machine's runs of two images, compared.
fn pair<O: Sink>(
    alloc: Global,
    desc: &Desc,
    one: Image,
    two: Image,
    cycles: u32,
    out: &mut O,
) -> Result<Ended, Refusal>
    requires fits { Fits desc.now one.ram }
    requires fits2 { Fits desc.now two.ram }
    ensures { Performs (pair_task desc.now (image_text one) (image_text two) cycles)
        (O.told out.old) (O.told out.new) result }
{
    let answer = build_pair(alloc, desc, one, two)?.run(cycles);
    write_comparison(&answer, out)?;
    Ok(compared_of(answer.first))
}

/// Does what a task asks for. Errors: `Memory`, before anything is written; `Write`, only where the sink's count of
/// faults rose, with a part of the text written.
pub(crate) fn perform<O: Sink>(alloc: Global, task: Task, out: &mut O) -> Result<Ended, Refusal>
    requires { InMemory (task_text task) }
    ensures { Performs (task_text task) (O.told out.old) (O.told out.new) result }
{
    match task {
        Task::Isa { image, steps } => isa(alloc, image, steps, out),
        Task::Report { read, cycles } => report(alloc, read, cycles, out),
        Task::Trace { read, cycles } => trace(alloc, read, cycles, out),
        Task::Pair {
            desc,
            one,
            two,
            cycles,
        } => pair(alloc, &desc, one, two, cycles, out),
    }
}
