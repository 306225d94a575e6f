//! The phase: turn by turn.
ghost use Rattle.std.specs.Prelude.{◌≡◌, ◌<◌, ◌-◌, ◌++◌, [], length, drop};
ghost use Rattle.std.specs.List.{AllByRecursion as Each};
ghost use Rattle.window_model.specs.inner.Row.{HasRoom, IsLonger, most_retired};
ghost use Rattle.window_model.specs.State.{Machine};
ghost use Rattle.rename_taint.specs.Writes.{without_retired};
ghost use Rattle.window_model.specs.Rename.{CallAlone};
ghost use Rattle.retire.specs.Parts.{TakesStore, Tells, with_parts, with_more_retired, retires};
ghost use Rattle.lsq.specs.Queues.{without};
ghost use Rattle.retire.specs.Gone.{leaving_entries, MayRetire, without_each, queues_without};

use crate::commit::{commit, tell};
use crate::turn::{Turn, has_stored, turn_at};
use byte_ram::Ram;
use cache_tags::Tags;
use lsq::Lsq;
use machine_desc::Desc;
use rename_taint::RenameTaint;
use rob_ring::RobRing;
use rv_types::{End, Piece, REGISTERS};
use window_model::Row;

/// Phase Retire: up to the description's width of retiring, the oldest entries take effect, with their events in the
/// row and a call's bytes in the piece. Answers how the run ends: None exactly where it goes on.
///
/// What it leaves is what the definition leaves of every machine with this window, cache, memory, registers and pc,
/// whose run hasn't ended. As many have retired as the reorder buffer has fewer entries then: those were its oldest,
/// and the rename table and the queues of loads and stores have let go of them. It asks that the cache has the
/// description's sets and lines, that a call stands alone, and that memory takes the stores.
pub fn retire<R: RenameTaint>(
    rob: &mut RobRing,
    table: &mut R,
    lsq: &mut Lsq,
    tags: &mut Tags,
    ram: &mut Ram,
    regs: &mut [u32; REGISTERS],
    pc: &mut u32,
    desc: &Desc,
    row: &mut Row,
    piece: &mut Piece,
) -> Option<End>
    requires room { HasRoom most_retired row.old }
    requires empty { piece.old ≡ [] }
    requires sets { tags.old.desc.cache_sets ≡ desc.now.cache_sets }
    requires line { tags.old.desc.cache_line ≡ desc.now.cache_line }
    requires call_alone { CallAlone rob.old.entries }
    requires stores_fit { Each (TakesStore ram.old) rob.old.entries }
    ensures state { (x : Machine) →
        with_more_retired (length rob.old.entries - length rob.new.entries)
        (with_parts rob.new tags.new ram.new regs.new pc.new result x)
        ≡ (retires desc.now rob.old tags.old ram.old regs.old pc.old x).machine }
    ensures row { Tells (retires desc.now rob.old tags.old ram.old regs.old pc.old) row.old row.new }
    ensures piece { (x : Machine) → piece.new ≡ (retires desc.now rob.old tags.old ram.old regs.old pc.old x).piece }
    ensures left { rob.old.entries ≡ leaving_entries rob.old rob.new ++ rob.new.entries }
    ensures may_retire { Each MayRetire (leaving_entries rob.old rob.new) }
    ensures same_room { rob.new.room ≡ rob.old.room }
    ensures table { R.writes table.new ≡ without_each (leaving_entries rob.old rob.new) (R.writes table.old) }
    ensures same_table_room { R.room table.new ≡ R.room table.old }
    ensures lsq { lsq.new ≡ queues_without (leaving_entries rob.old rob.new) lsq.old }
    ensures desc { tags.new.desc ≡ tags.old.desc }
    ensures few { IsLonger most_retired row.old row.new }
{
    let mut stored = false;
    for _ in 0..desc.core_retire_width {
        let head = match turn_at(rob, stored) {
            Turn::Leaves => rob.lend(0),
            Turn::Waits => return None,
            Turn::Traps(cause, at) => return Some(End::Trap(cause, at)),
        };
        let ended = commit(head, ram, regs, pc, piece);
        tell(head, piece, desc, tags, row);
        stored = has_stored(stored, head);
        let serial = head.serial;
        take_out(serial, rob, table, lsq);
        if let Some(end) = ended {
            return Some(end);
        }
    }
    None
}

// The head, which has this serial, leaves the reorder buffer, the rename table and the queues of loads and stores.
fn take_out<R: RenameTaint>(serial: u64, rob: &mut RobRing, table: &mut R, lsq: &mut Lsq)
    requires some { 0 < length rob.old.entries }
    ensures rob { rob.new ≡ record rob.old { entries = drop 1 rob.old.entries } }
    ensures table { R.writes table.new ≡ without_retired serial (R.writes table.old) }
    ensures same_table_room { R.room table.new ≡ R.room table.old }
    ensures lsq { lsq.new ≡ without serial lsq.old }
{
    rob.pop_head();
    table.retired(serial);
    lsq.pop(serial);
}
