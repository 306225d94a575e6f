//! A cycle over the parts: its phases, or none where nothing happens (`docs/machine.md`, "Cycles in which nothing
//! happens").
ghost use Rattle.std.specs.Prelude.{◌≡◌, ◌<◌, ◌≤◌, ◌-◌, ◌^◌, length, None};
ghost use Rattle.elf_loader.specs.inner.Code.{word_at};
ghost use Rattle.window_model.specs.Committed.{Commits};
ghost use Rattle.window_model.specs.Cycle.{Cycled, cycle};
ghost use Rattle.core_cycle.specs.Kept.{KeptUntil};

use crate::cycle::{after_retire, before_retire};
use crate::due::still_until;
use crate::phases::retire;
use core_parts::Parts;
use rename_taint::RenameTaint;
use rv_types::Piece;
use window_model::Row;

/// One cycle of parts of which it is known that nothing happens in the cycles below a number, in which no phase goes.
/// The answer is that number as it is known after the cycle, 0 where that is known of none.
pub(crate) fn clock<R: RenameTaint>(
    parts: &mut Parts<R>,
    until: u32,
    row: &mut Row,
    piece: &mut Piece,
) -> u32
    requires kept { KeptUntil until (word_at parts.old.code) parts.old }
    requires running { parts.old.machine.end ≡ None }
    requires few { parts.old.machine.cycle < 2 ^ 32 - 1 }
    ensures cycled { record { machine = parts.new.machine; row = row.new; piece = piece.new }
        ≡ cycle parts.old.desc (word_at parts.old.code) parts.old.machine }
    ensures commits { Commits (word_at parts.old.code) parts.old.machine parts.new.machine piece.new }
    ensures desc { parts.new.desc ≡ parts.old.desc }
    ensures code { parts.new.code ≡ parts.old.code }
    ensures kept { KeptUntil result (word_at parts.new.code) parts.new }
    ensures events { length row.new.events ≤ 232 }
{
    parts.begin();
    row.begin(parts.cycle);
    piece.clear();
    if parts.cycle < until {
        return until;
    }
    before_retire(parts, row);
    retire(parts, row, piece);
    after_retire(parts, row);
    still_until(parts, row)
}
