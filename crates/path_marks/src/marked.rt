//! The state of the instruction set with marks beside it.
ghost use Rattle.std.specs.Prelude.{◌≡◌, IfOk};
ghost use Rattle.elf_loader.specs.inner.Code.{word_at};
ghost use Rattle.rv_types.specs.Isa.{isa_step, reg, start};
ghost use Rattle.isa_step.specs.Outcome.{outcome};
ghost use Rattle.window_model.specs.Fetch.{instr_at};
ghost use Rattle.secret_marks.specs.Ranges.{secret_in};
ghost use Rattle.secret_marks.specs.Streams.{public_in};
ghost use Rattle.constant_time.specs.PathMarks.{after_step, first_marks};
ghost use Rattle.path_marks.specs.State.{next_shown};

use crate::moving::move_next;
use crate::showing::shows_as;
use elf_loader::Image;
use isa_step::{Isa, Stepped};
use mark_words::{UNMARKED, publish, secret_bytes};
use rv_types::{Kind, NoMemory, Piece, REGISTERS, kind_of};
use secret_marks::{PublicStreams, SecretRange, WordMarks};
use std::alloc::Global;
use std::marker::Model;

/// The state of the instruction set with marks of what may depend on a secret beside it, seen as both. Once the run has
/// ended, by an exit or a trap, the marks mean nothing.
#[derive(Drop)]
pub struct MarkedPath {
    isa: Isa,
    regs: [WordMarks; REGISTERS],
    bytes: Vec<bool>,
    public: PublicStreams,
}

impl Model for MarkedPath {
    ghost use Rattle.std.specs.Prelude.{◌≡◌, length};
    ghost use Rattle.path_marks.specs.State.{MarkedState};

    ghost Value = { MarkedState };

    ghost view = { λ p. record {
      code = p.isa.code;
      hart = p.isa.hart;
      marks = record { regs = p.regs; bytes = p.bytes.items };
      public = p.public;
    } };

    ghost invariant = { λ p. length p.bytes.items ≡ length p.isa.hart.ram.bytes };
}

impl MarkedPath {
    /// The state in which an image begins, of whose memory the bytes of the ranges are secret, with these streams
    /// public. It takes all the memory that a run takes; the one error is want of it.
    pub fn new(
        alloc: Global,
        image: Image,
        secret: &[SecretRange],
        public: PublicStreams,
    ) -> Result<MarkedPath, NoMemory>
        ensures { IfOk result (λ p. p ≡ record {
          code = image.code;
          hart = start image.entry image.ram;
          marks = first_marks (secret_in secret.now) image.ram;
          public = public;
        }) }
    {
        let bytes = secret_bytes(alloc, image.ram.base(), image.ram.size(), secret)?;
        Ok(MarkedPath {
            isa: Isa::new(image),
            regs: [UNMARKED; REGISTERS],
            bytes,
            public,
        })
    }

    /// The address of the next instruction.
    pub fn pc(&self) -> u32
        ensures { result ≡ self.now.hart.pc }
    {
        self.isa.pc()
    }

    /// What register a0 holds: the stream, where a write is the next instruction.
    pub fn stream(&self) -> u32
        ensures { result ≡ reg self.now.hart.regs 10 }
    {
        self.isa.regs()[10]
    }

    /// The streams that are public.
    pub fn public(&self) -> PublicStreams
        ensures { result ≡ self.now.public }
    {
        self.public
    }

    /// The kind of the next instruction, if something marked shows in its step.
    pub fn shown(&self) -> Option<Kind>
        ensures { result ≡ next_shown self.now }
    {
        let instr = self.isa.instr()?;
        let kind = kind_of(&instr);
        if shows_as(kind, self.isa.regs(), &self.regs, &instr) {
            Some(kind)
        } else {
            None
        }
    }

    /// One step of the instruction set. The piece is cleared first, and then holds what the step puts out. Where the
    /// run goes on, the marks are those behind the step; where it ends, they mean nothing.
    pub fn step(&mut self, out: &mut Piece) -> Stepped
        ensures stepped { record { hart = self.new.hart; piece = out.new; stepped = result }
            ≡ outcome self.old.hart (isa_step (word_at self.old.code) self.old.hart) }
        ensures marks { result ≡ Stepped.Next → self.new.marks ≡ after_step (public_in self.old.public) self.old.hart
            (instr_at (word_at self.old.code self.old.hart.pc)) out.new self.old.marks }
        ensures code { self.new.code ≡ self.old.code }
        ensures public { self.new.public ≡ self.old.public }
    {
        let base = self.isa.ram().base();
        let stream = self.isa.regs()[10];
        let from = self.isa.regs()[11];
        // marks move first, by registers and memory as the instruction finds them
        move_next(&mut self.regs, &mut self.bytes, &self.isa);
        let stepped = self.isa.step(out);
        if let Stepped::Next = stepped {
            let at = from.saturating_sub(base);
            publish(&mut self.bytes, self.public, stream, at, out.as_slice());
        }
        stepped
    }
}
