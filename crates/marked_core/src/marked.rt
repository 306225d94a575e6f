//! The core with marks beside it.
ghost use Rattle.std.specs.Prelude.{◌≡◌, ◌<◌, ◌≤◌, ◌-◌, ◌^◌, length, IfOk, None};
ghost use Rattle.elf_loader.specs.inner.Code.{word_at};
ghost use Rattle.rv_types.specs.Isa.{reg};
ghost use Rattle.window_model.specs.Committed.{Commits};
ghost use Rattle.window_model.specs.Cycle.{Cycled, cycle};
ghost use Rattle.window_model.specs.State.{opening};
ghost use Rattle.secret_marks.specs.Marks.{opening_marks};
ghost use Rattle.secret_marks.specs.Ranges.{secret_in};
ghost use Rattle.secret_marks.specs.Shown.{shown_cycle};
ghost use Rattle.secret_marks.specs.Streams.{public_in};
ghost use Rattle.secret_marks.specs.Watch.{watch_cycle};

use crate::clocking::clock;
use crate::opening::opening_marks;
use crate::phases::stream;
use core_parts::Parts;
use elf_loader::Image;
use entry_marks::Marks;
use machine_desc::Desc;
use rename_taint::RenameTaint;
use rv_types::{End, NoMemory, Piece};
use secret_marks::{PublicStreams, SecretRange, Shown};
use std::alloc::Global;
use std::marker::Model;
use window_model::Row;

/// The written machine by its parts, with marks of what may depend on a secret beside it: seen as the description, the
/// words that it may fetch, the machine (`docs/machine.md`, "State") and the marks (`docs/theorems.md`, "Secrets that
/// are loaded").
#[derive(Drop)]
pub struct MarkedCore<R: RenameTaint> {
    parts: Box<Parts<R>>,
    marks: Marks,
    public: PublicStreams,
    // Whether it is noted that no branch or JALR in flight is resolved with a marked outcome.
    unexposed: bool,
}

impl<R: RenameTaint> Model for MarkedCore<R> {
    ghost use Rattle.entry_marks.specs.Walk.{marks_of};
    ghost use Rattle.marked_core.specs.InStep.{Between};
    ghost use Rattle.marked_core.specs.Marked.{Marked, marked_code};

    ghost Value = { Marked };

    ghost coded = { marked_code };

    ghost view = { λ c. record {
      desc = c.parts.value.desc;
      code = c.parts.value.code;
      machine = c.parts.value.machine;
      marks = marks_of c.marks;
      public = c.public;
    } };

    ghost invariant = { λ c. Between c.parts.value c.marks c.unexposed };
}

impl<R: RenameTaint + Drop> MarkedCore<R> {
    /// The core before its first cycle, with the image in a memory of the description's base and size, of whose bytes
    /// those of the ranges are secret, and with these streams public. It takes all the memory that a run takes; the one
    /// error is want of it.
    pub fn new(
        alloc: Global,
        desc: &Desc,
        image: Image,
        secret: &[SecretRange],
        public: PublicStreams,
    ) -> Result<MarkedCore<R>, NoMemory>
        requires base { image.ram.base ≡ desc.now.ram_base }
        requires size { length image.ram.bytes ≡ desc.now.ram_size }
        ensures { IfOk result (λ c. c ≡ record {
          desc = desc.now;
          code = image.code;
          machine = opening desc.now image.entry image.ram;
          marks = opening_marks (secret_in secret.now) image.ram;
          public = public;
        }) }
    {
        let Image { ram, code, entry } = image;
        let marks = opening_marks(alloc, desc, &ram, secret)?;
        let parts = Parts::new(alloc, desc, code, entry, ram)?;
        match Box::new(alloc, parts) {
            Ok(parts) => Ok(MarkedCore {
                parts,
                marks,
                public,
                unexposed: true,
            }),
            Err(_) => Err(NoMemory),
        }
    }
}

impl<R: RenameTaint> MarkedCore<R> {
    /// One cycle. Row and piece are cleared first; then the row has the cycle's number and its events, and the piece
    /// the bytes that it put out, as of any core (`Clocked`). The answer is what shows first in this cycle, None where
    /// nothing does.
    pub fn cycle(&mut self, row: &mut Row, piece: &mut Piece) -> Option<Shown>
        requires running { self.old.machine.end ≡ None }
        requires few { self.old.machine.cycle < 2 ^ 32 - 1 }
        ensures cycled { record { machine = self.new.machine; row = row.new; piece = piece.new }
            ≡ cycle self.old.desc (word_at self.old.code) self.old.machine }
        ensures commits { Commits (word_at self.old.code) self.old.machine self.new.machine piece.new }
        ensures desc { self.new.desc ≡ self.old.desc }
        ensures code { self.new.code ≡ self.old.code }
        ensures public { self.new.public ≡ self.old.public }
        ensures events { length row.new.events ≤ 232 }
        ensures marks { self.new.marks ≡ (watch_cycle (public_in self.old.public) self.old.desc (word_at self.old.code)
            self.old.machine self.old.marks).marks }
        ensures shown { result ≡ shown_cycle (public_in self.old.public) self.old.desc self.old.machine self.old.marks }
    {
        clock(
            &mut self.parts,
            &mut self.marks,
            self.public,
            &mut self.unexposed,
            row,
            piece,
        )
    }

    /// How the run ended, None while it goes on.
    pub fn end(&self) -> Option<End>
        ensures { result ≡ self.now.machine.end }
    {
        self.parts.end
    }

    /// How many cycles there were so far.
    pub fn cycles(&self) -> u32
        ensures { result ≡ self.now.machine.cycle }
    {
        self.parts.cycle
    }

    /// The instructions that have retired.
    pub fn retired(&self) -> u64
        ensures { result ≡ self.now.machine.retired }
    {
        self.parts.retired
    }

    /// The streams that are public.
    pub fn public(&self) -> PublicStreams
        ensures { result ≡ self.now.public }
    {
        self.public
    }

    /// What register a0 holds: the stream, where a write is the next instruction that retires.
    pub fn stream(&self) -> u32
        ensures { result ≡ reg self.now.machine.regs 10 }
    {
        stream(&self.parts)
    }
}
