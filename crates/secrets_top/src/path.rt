//! The path with marks beside it: a run of the instruction set, and what is told of it. All memory is taken before the
//! first step, and nothing is written before the last.
ghost use Rattle.std.specs.Prelude.{◌≡◌, IfOk};
ghost use Rattle.elf_loader.specs.inner.Code.{word_at};
ghost use Rattle.run_inputs.specs.Loaded.{image_text};
ghost use Rattle.secrets_top.specs.Verdict.{path_verdict_from, path_verdict_of};

use crate::verdict::{Verdict, told_of};
use elf_loader::Image;
use path_marks::{MarkedPath, Walked, first_shown};
use rv_types::{Ending, NoMemory};
use secret_marks::{PublicStreams, SecretRange};
use std::alloc::Global;

// Takes at most so many steps, until something shows.
fn walk(path: &mut MarkedPath, steps: u32) -> Verdict
    ensures { result ≡ path_verdict_from path.old.public (word_at path.old.code) steps path.old.hart path.old.marks }
{
    let public = path.public();
    match first_shown(path, steps) {
        Walked::Shown(first) => Verdict::PathShown(first),
        Walked::Hidden(ran, published) => {
            let ending = Ending {
                end: ran.ended,
                retired: ran.taken,
                cycles: None,
            };
            Verdict::Hidden(ending, told_of(public, published))
        }
    }
}

/// What is told of an image's path, of at most so many steps. The one error is want of memory, before the first step.
pub(crate) fn judge_path(
    alloc: Global,
    image: Image,
    secret: &[SecretRange],
    public: PublicStreams,
    steps: u32,
) -> Result<Verdict, NoMemory>
    ensures { IfOk result (λ v. v ≡ path_verdict_of (image_text image) secret.now public steps) }
{
    let mut path = MarkedPath::new(alloc, image, secret, public)?;
    Ok(walk(&mut path, steps))
}
