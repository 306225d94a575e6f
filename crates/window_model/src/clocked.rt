//! What a core is that is the written machine: one call is one cycle.
ghost use Rattle.std.specs.Prelude.{◌≡◌, ◌<◌, ◌≤◌, ◌-◌, ◌^◌, length, None};
ghost use Rattle.rv_types.specs.Memory.{Code};
ghost use Rattle.machine_desc.specs.declared.Desc.{Desc};
ghost use Rattle.window_model.specs.State.{Machine};
ghost use Rattle.window_model.specs.Cycle.{Cycled, cycle};
ghost use Rattle.window_model.specs.Committed.{Commits};

use crate::Row;
use byte_ram::Ram;
use rv_types::{End, Piece, REGISTERS};

/// A core that is the written machine (`docs/machine.md`): what a call of it leaves is what `specs/Cycle.antt` says of
/// the machine that it stands for. No call takes memory.
pub trait Clocked {
    /// The description by which the core was made.
    ghost desc: { Self → Desc };

    /// The words that may be fetched.
    ghost code: { Self → Code };

    /// The whole state of the machine.
    ghost machine: { Self → Machine };

    /// One cycle. Row and piece are cleared first; then the row has the cycle's number and its events, and the piece
    /// the bytes that it put out. What retires are steps of the instruction set (`docs/theorems.md`, "Committed
    /// state").
    fn cycle(&mut self, row: &mut Row, piece: &mut Piece)
        requires running { (machine self.old).end ≡ None }
        requires few { (machine self.old).cycle < 2 ^ 32 - 1 }
        ensures cycled { record { machine = machine self.new; row = row.new; piece = piece.new }
            ≡ cycle (desc self.old) (code self.old) (machine self.old) }
        ensures commits { Commits (code self.old) (machine self.old) (machine self.new) piece.new }
        ensures desc { desc self.new ≡ desc self.old }
        ensures code { code self.new ≡ code self.old }
        ensures events { length row.new.events ≤ 232 };

    /// How the run ended, None while it goes on.
    fn end(&self) -> Option<End>
        ensures { result ≡ (machine self.now).end };

    /// How many cycles there were so far.
    fn cycles(&self) -> u32
        ensures { result ≡ (machine self.now).cycle };

    /// The instructions that have retired.
    fn retired(&self) -> u64
        ensures { result ≡ (machine self.now).retired };

    /// The registers, as the retired instructions left them.
    fn regs(&self) -> &[u32; REGISTERS]
        ensures { result.now ≡ (machine self.now).regs };

    /// The address of the instruction that retires next.
    fn pc(&self) -> u32
        ensures { result ≡ (machine self.now).pc };

    /// Memory, as the retired instructions left it.
    fn ram(&self) -> &Ram
        ensures { result.now ≡ (machine self.now).ram };
}
