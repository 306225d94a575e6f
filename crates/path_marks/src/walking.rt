//! What shows first in a run.
ghost use Rattle.std.specs.Prelude.{◌≡◌};
ghost use Rattle.path_marks.specs.Walked.{Tells};

use crate::marked::MarkedPath;
use constant_time::FirstStep;
use isa_step::{Ran, Stepped};
use mark_words::count_published;
use rv_types::{End, Piece};

/// What is told of a run with marks beside it.
#[derive(Clone, Copy, Debug, PartialEq, Eq)]
pub enum Walked {
    /// This step shows first.
    Shown(FirstStep),
    /// Nothing shows: so many steps were taken and so the run ended, if it did; and so many bytes were published.
    Hidden(Ran, u64),
}

/// What shows first in at most n steps of the instruction set, of which the first has number 1; and where nothing does,
/// how many were taken, how the run ended, and how many bytes they published. It takes no memory.
pub fn first_shown(path: &mut MarkedPath, n: u32) -> Walked
    ensures { Tells n path.old result }
{
    let mut piece = Piece::new();
    let mut published = 0u64;
    for done in 0..n {
        if let Some(kind) = path.shown() {
            return Walked::Shown(FirstStep {
                step: done as u64 + 1,
                kind,
                pc: path.pc(),
            });
        }
        let stream = path.stream();
        match path.step(&mut piece) {
            Stepped::Next => {
                published += count_published(path.public(), stream, piece.as_slice());
            }
            Stepped::Exit(value) => {
                let ran = Ran {
                    taken: done as u64 + 1,
                    ended: Some(End::Exit(value)),
                };
                return Walked::Hidden(ran, published);
            }
            Stepped::Trap(cause) => {
                let ran = Ran {
                    taken: done as u64,
                    ended: Some(End::Trap(cause, path.pc())),
                };
                return Walked::Hidden(ran, published);
            }
        }
    }
    let ran = Ran {
        taken: n as u64,
        ended: None,
    };
    Walked::Hidden(ran, published)
}
