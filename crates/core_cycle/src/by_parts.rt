//! The core, held by its parts and seen as the machine.
ghost use Rattle.std.specs.Prelude.{◌≡◌, ◌<◌, true, length, IfOk};
ghost use Rattle.queue_laws.specs.Window.{StandFor, Tracks};
ghost use Rattle.machine_desc.specs.Questions.{loads_pass};
ghost use Rattle.window_model.specs.State.{opening};
ghost use Rattle.core_parts.specs.Lent.{HasAddressRoots, HasRoots, NamesRoots, NamesWriters};
ghost use Rattle.core_parts.specs.Lent.{ShowsOlder, TellsPart, TellsReady, TellsVisible};
ghost use Rattle.core_cycle.specs.Waiting.{HoldsByPoint};

use crate::clocking::clock;
use crate::lent::stations_of;
use byte_ram::Ram;
use core_parts::Parts;
use elf_loader::Image;
use lsq::Lsq;
use machine_desc::Desc;
use rename_taint::RenameTaint;
use rob_ring::RobRing;
use rv_types::{End, NoMemory, Piece, REGISTERS};
use stations::Stations;
use std::alloc::Global;
use std::marker::Model;
use visibility::VisPoint;
use window_model::{Clocked, Row};

/// The written machine by its parts: seen as the machine (`docs/machine.md`, "State"), its description, and the words
/// that it may fetch. Between two cycles the parts that it lends stand for the machine. In a cycle of which it knows
/// that nothing happens no phase goes (`docs/machine.md`, "Cycles in which nothing happens").
#[derive(Drop)]
pub struct Core<R: RenameTaint> {
    parts: Box<Parts<R>>,
    /// Nothing happens in the cycles below this number. 0 where that is known of none.
    still_until: u32,
}

impl<R: RenameTaint> Model for Core<R> {
    ghost use Rattle.core_cycle.specs.Programmed.{Programmed, programmed_code};
    ghost use Rattle.core_cycle.specs.Kept.{KeptUntil};
    ghost use Rattle.elf_loader.specs.inner.Code.{word_at};

    ghost Value = { Programmed };

    ghost coded = { programmed_code };

    ghost view = { λ c. record { desc = c.parts.value.desc; code = c.parts.value.code; machine = c.parts.value.machine } };

    ghost invariant = { λ c. KeptUntil c.still_until (word_at c.parts.value.code) c.parts.value };
}

impl<R: RenameTaint + Drop> Core<R> {
    /// The core before its first cycle, with the image in a memory of the description's base and size. It takes all the
    /// memory that a run takes; the one error is want of it.
    pub fn new(alloc: Global, desc: &Desc, image: Image) -> Result<Core<R>, NoMemory>
        requires base { image.ram.base ≡ desc.now.ram_base }
        requires size { length image.ram.bytes ≡ desc.now.ram_size }
        ensures { IfOk result (λ c.
            c ≡ record { desc = desc.now; code = image.code; machine = opening desc.now image.entry image.ram }) }
    {
        let Image { ram, code, entry } = image;
        let parts = Parts::new(alloc, desc, code, entry, ram)?;
        match Box::new(alloc, parts) {
            Ok(parts) => Ok(Core {
                parts,
                still_until: 0,
            }),
            Err(_) => Err(NoMemory),
        }
    }
}

impl<R: RenameTaint> Core<R> {
    /// The reorder buffer: it has the window.
    pub fn rob(&self) -> &RobRing
        ensures { result.now.entries ≡ self.now.machine.window }
    {
        self.parts.rob()
    }

    /// The rename table: it names the writer and the youngest root that each register has for an entry behind the
    /// window. For a register without a root in flight the root may be one that has retired. Kept for who looks at a
    /// core from outside.
    pub fn rename(&self) -> &R
        ensures writers { NamesWriters (R.writes result.now) self.now.machine.window }
        ensures roots { NamesRoots self.now.machine.next_serial (R.writes result.now) self.now.machine.window }
    {
        self.parts.table()
    }

    /// The stations: they hold the entries that wait, and what these want and await, where results are held back by a
    /// visibility point that has moved over the window; and they tell which are ready, and of a store which part is.
    /// Kept for who looks at a core from outside.
    pub fn stations(&self) -> &Stations
        ensures waiting { HoldsByPoint self.now.desc result.now self.now.machine.window }
        ensures ready { TellsReady self.now.desc result.now self.now.machine.window }
        ensures parts { TellsPart self.now.desc result.now self.now.machine.window }
    {
        stations_of(&self.parts)
    }

    /// The queues: they hold the window's loads and stores by age; and what loads have read and which stores are
    /// cleared, where loads may pass stores. Each store has the youngest root of its address; one without a root in
    /// flight may have one that has retired.
    pub fn lsq(&self) -> &Lsq
        ensures queues { StandFor result.now self.now.machine.window }
        ensures tracks { loads_pass self.now.desc ≡ true → Tracks result.now self.now.machine.window }
        ensures roots { HasAddressRoots self.now.machine.next_serial result.now.stores self.now.machine.window }
    {
        self.parts.lsq()
    }

    /// The visibility point: entries up to it are visible, and no others.
    pub fn point(&self) -> &VisPoint
        ensures visible { TellsVisible self.now.desc.stt_model result.now self.now.machine.window }
        ensures older { ShowsOlder result.now self.now.machine.window }
    {
        self.parts.point()
    }

    /// The youngest roots of taint (YRoT in the papers on speculative taint tracking) of the entry at a position,
    /// counted from the oldest: for its first and second source the serial of the youngest load from which the source's
    /// value flows. The value is tainted until that load is visible. For a source without a root in flight it may be
    /// one that has retired. Kept for who looks at a core from outside.
    pub fn yrot(&self, i: u32) -> [Option<u64>; 2]
        requires { i < length self.now.machine.window }
        ensures { HasRoots self.now.machine.next_serial self.now.machine.window i result }
    {
        self.parts.yrot_at(i)
    }
}

impl<R: RenameTaint> Clocked for Core<R> {
    ghost use Rattle.elf_loader.specs.inner.Code.{word_at};

    ghost desc = { λ c. c.desc };

    ghost code = { λ c. word_at c.code };

    ghost machine = { λ c. c.machine };

    fn cycle(&mut self, row: &mut Row, piece: &mut Piece) {
        self.still_until = clock(&mut self.parts, self.still_until, row, piece);
    }

    fn end(&self) -> Option<End> {
        self.parts.end
    }

    fn cycles(&self) -> u32 {
        self.parts.cycle
    }

    fn retired(&self) -> u64 {
        self.parts.retired
    }

    fn regs(&self) -> &[u32; REGISTERS] {
        &self.parts.regs
    }

    fn pc(&self) -> u32 {
        self.parts.pc
    }

    fn ram(&self) -> &Ram {
        &self.parts.ram
    }
}
