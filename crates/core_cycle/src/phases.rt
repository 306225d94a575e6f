//! The phase that stands over loose parts: a call of its crate on the parts that it moves. A core beside which marks
//! walk uses it, too.
ghost use Rattle.std.specs.Prelude.{◌≡◌, ◌<◌, ◌+◌, ◌^◌, [], None};
ghost use Rattle.visibility.specs.Point.{HasAdvanced};
ghost use Rattle.window_model.specs.Retire.{retire};
ghost use Rattle.window_model.specs.inner.Row.{HasRoom, IsLonger, most_entries, most_retired, with_events};

use core_parts::Parts;
use rename_taint::RenameTaint;
use rv_types::Piece;
use window_model::Row;

/// Phase Retire, once the visibility point has moved over the window: it says the same of the entries that stay. What
/// is kept of sources by position goes with those that retire.
pub fn retire<R: RenameTaint>(parts: &mut Parts<R>, row: &mut Row, piece: &mut Piece)
    requires advanced { HasAdvanced parts.old.point parts.old.machine.window }
    requires room { HasRoom most_retired row.old }
    requires running { parts.old.machine.end ≡ None }
    requires empty { piece.old ≡ [] }
    requires counts { parts.old.machine.retired + most_entries < 2 ^ 64 }
    ensures machine { parts.new ≡ record parts.old { machine = (retire parts.old.desc parts.old.machine).machine } }
    ensures row { row.new ≡ with_events row.old (retire parts.old.desc parts.old.machine).events }
    ensures piece { piece.new ≡ (retire parts.old.desc parts.old.machine).piece }
    ensures advanced { HasAdvanced parts.new.point parts.new.machine.window }
    ensures few { IsLonger most_retired row.old row.new }
{
    let before = parts.rob.len();
    parts.end = retire::retire(
        &mut parts.rob,
        &mut parts.table,
        &mut parts.lsq,
        &mut parts.tags,
        &mut parts.ram,
        &mut parts.regs,
        &mut parts.pc,
        &parts.desc,
        row,
        piece,
    );
    let left = parts.rob.len();
    parts.retired += before.saturating_sub(left) as u64;
    parts.sources.truncate_front(left as usize);
}
