//! A run with marks beside it, of a core or of the instruction set, and what is told of it. All memory is taken before
//! the run begins, and nothing is written before it ends.
ghost use Rattle.std.specs.Prelude.{◌≡◌, ◌<◌, ◌+◌, ◌^◌, IfOk};
ghost use Rattle.elf_loader.specs.inner.Code.{word_at};
ghost use Rattle.pair_run.specs.Running.{ending_at};
ghost use Rattle.run_inputs.specs.Loaded.{Fits, image_text};
ghost use Rattle.secrets_top.specs.Verdict.{verdict_from, verdict_of};
ghost use Rattle.secrets_top.specs.Ranges.{first_faulty};
ghost use Rattle.secrets_top.specs.inner.Top.{InMemory, Performs, PerformsAccepted, image_in, verdict_on};

use crate::path::judge_path;
use crate::ranges::check_ranges;
use crate::refusal::Unjudged;
use crate::task::Task;
use crate::verdict::{Verdict, told_of, write_verdict};
use marked_core::{MarkedCore, first_shown};
use rename_taint::ByTable;
use run_inputs::Described;
use rv_types::{Ending, NoMemory, Piece};
use secret_marks::{PublicStreams, SecretRange};
use std::alloc::Global;
use tool_io::Sink;
use window_model::empty_row;

/// The core that the program runs: its registers are renamed by a table.
type Core = MarkedCore<ByTable>;

fn ending_at(core: &Core) -> Ending
    ensures { result ≡ ending_at core.now.machine }
{
    Ending {
        end: core.end(),
        retired: core.retired(),
        cycles: Some(core.cycles()),
    }
}

// Runs a core for at most so many cycles, until something shows.
fn watch(core: &mut Core, cycles: u32) -> Verdict
    requires few { core.old.machine.cycle + cycles < 2 ^ 32 }
    ensures { result ≡ verdict_from core.old.public core.old.desc (word_at core.old.code) cycles
        core.old.machine core.old.marks }
{
    let mut row = empty_row();
    let mut piece = Piece::new();
    let mut published = 0;
    match first_shown(core, &mut row, &mut piece, &mut published, cycles) {
        Some(first) => Verdict::Shown(first),
        None => Verdict::Hidden(ending_at(core), told_of(core.public(), published)),
    }
}

// What is told of the run of a core. The one error is want of memory, before the first cycle.
fn judge_core(
    alloc: Global,
    read: Described,
    secret: &[SecretRange],
    public: PublicStreams,
    cycles: u32,
) -> Result<Verdict, NoMemory>
    requires { Fits read.desc read.image.ram }
    ensures { IfOk result (λ v. v ≡ verdict_of read.desc (image_text read.image) secret.now public cycles) }
{
    let Described { desc, image } = read;
    let mut core = Core::new(alloc, &desc, image, secret, public)?;
    Ok(watch(&mut core, cycles))
}

// What is told of a run. The one error is want of memory, before it begins.
fn judge(
    alloc: Global,
    task: Task,
    secret: &[SecretRange],
    public: PublicStreams,
) -> Result<Verdict, NoMemory>
    requires { InMemory task }
    ensures { IfOk result (λ v. v ≡ verdict_on task secret.now public) }
{
    match task {
        Task::Core { read, cycles } => judge_core(alloc, read, secret, public, cycles),
        Task::Path { image, steps } => judge_path(alloc, image, secret, public, steps),
    }
}

// Tells what a run shows. Errors: `Memory`, before anything is written; `Write`, only where the sink's count of faults
// rose, with a part of the text written.
fn tell<O: Sink>(
    alloc: Global,
    task: Task,
    secret: &[SecretRange],
    public: PublicStreams,
    out: &mut O,
) -> Result<Verdict, Unjudged>
    requires { InMemory task }
    ensures { Performs (verdict_on task secret.now public) (O.told out.old) (O.told out.new) result }
{
    let verdict = judge(alloc, task, secret, public)?;
    write_verdict(&verdict, out)?;
    Ok(verdict)
}

/// Tells what the run of what was read shows, where each range is accepted. Errors: `Range`, the first that isn't, and
/// nothing else is told then, want of memory neither; `Memory`, before anything is written; `Write`, only where the
/// sink's count of faults rose, with a part of the text written.
pub(crate) fn perform<O: Sink>(
    alloc: Global,
    task: Task,
    secret: &[SecretRange],
    public: PublicStreams,
    out: &mut O,
) -> Result<Verdict, Unjudged>
    requires { InMemory task }
    ensures { PerformsAccepted (first_faulty (image_in task) 0 secret.now) (verdict_on task secret.now public)
        (O.told out.old) (O.told out.new) result }
{
    match check_ranges(task.image(), secret) {
        Ok(()) => {}
        Err(faulty) => return Err(Unjudged::Range(faulty)),
    }
    tell(alloc, task, secret, public, out)
}
