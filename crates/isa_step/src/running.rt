//! Whole runs of the instruction set.
ghost use Rattle.std.specs.Prelude.{◌≡◌};
ghost use Rattle.rv_types.specs.Isa.{isa};
ghost use Rattle.elf_loader.specs.inner.Code.{word_at};

use crate::state::Isa;
use crate::stepped::{Ran, Stepped};
use rv_types::{End, Piece};

impl Isa {
    /// At most n steps, up to the first that ends the run. What they put out is dropped: who writes it calls `step`.
    pub fn run(&mut self, n: u64) -> Ran
        ensures last { self.new.hart ≡ (isa (word_at self.old.code) self.old.hart n).last }
        ensures taken { result.taken ≡ (isa (word_at self.old.code) self.old.hart n).steps }
        ensures ended { result.ended ≡ (isa (word_at self.old.code) self.old.hart n).ended }
        ensures code { self.new.code ≡ self.old.code }
    {
        let mut piece = Piece::new();
        for done in 0..n {
            match self.step(&mut piece) {
                Stepped::Next => {}
                Stepped::Exit(value) => {
                    return Ran {
                        taken: done + 1,
                        ended: Some(End::Exit(value)),
                    };
                }
                Stepped::Trap(cause) => {
                    return Ran {
                        taken: done,
                        ended: Some(End::Trap(cause, self.pc)),
                    };
                }
            }
        }
        Ran {
            taken: n,
            ended: None,
        }
    }
}
