//! The phase: a store is found and cleared; where a load passed it wrongly, that goes with all that is younger, and is
//! fetched anew.
ghost use Rattle.std.specs.Prelude.{◌≡◌, ◌<◌, IfSome, Some, length, slice_get, true};
ghost use Rattle.core_parts.specs.Dropped.{StopsBelow};
ghost use Rattle.visibility.specs.Point.{HasAdvanced};
ghost use Rattle.window_model.specs.Clear.{clear};
ghost use Rattle.window_model.specs.declared.Entry.{Entry};
ghost use Rattle.machine_desc.specs.Questions.{loads_pass};
ghost use Rattle.window_model.specs.inner.Row.{HasRoom, IsLonger, most_cleared, with_events};
ghost use Rattle.clear.specs.Cleared.{anew, anew_events, clearing, most_anew, violated_load, with_cleared};

use crate::finding::clearable;
use core_parts::Parts;
use rename_taint::RenameTaint;
use window_model::{Event, Row};

/// Phase Clear, once the visibility point has moved over the window: the oldest store whose address is known and not
/// tainted, and that isn't cleared, is, with its event in the row. Where younger loads passed it wrongly the oldest of
/// them is dropped, with all that is younger and all fetched items, its bit of dependence is set, and fetching goes on
/// at it, with history and stack as they were before it. Where there are no bits of dependence nothing is cleared.
pub fn clear<R: RenameTaint>(parts: &mut Parts<R>, row: &mut Row)
    requires advanced { HasAdvanced parts.old.point parts.old.machine.window }
    requires room { HasRoom most_cleared row.old }
    ensures machine { parts.new ≡ record parts.old { machine = (clear parts.old.desc parts.old.machine).machine } }
    ensures row { row.new ≡ with_events row.old (clear parts.old.desc parts.old.machine).events }
    ensures few { IsLonger most_cleared row.old row.new }
{
    if !parts.desc.loads_pass() {
        return;
    }
    let Some(serial) = next_cleared(parts) else {
        return;
    };
    clear_store(serial, parts, row);
}

// The serial of the store that is cleared next, once the visibility point has moved over the window. None where none
// may be.
fn next_cleared<R: RenameTaint>(parts: &Parts<R>) -> Option<u64>
    requires loads_pass { loads_pass parts.now.desc ≡ true }
    requires advanced { HasAdvanced parts.now.point parts.now.machine.window }
    ensures { result ≡ clearing parts.now.desc parts.now.machine }
{
    clearable(&parts.lsq, &parts.point)
}

// The store with this serial is cleared, and the load that it violates is fetched anew.
fn clear_store<R: RenameTaint>(serial: u64, parts: &mut Parts<R>, row: &mut Row)
    requires loads_pass { loads_pass parts.old.desc ≡ true }
    requires found { Some serial ≡ clearing parts.old.desc parts.old.machine }
    requires room { HasRoom most_cleared row.old }
    ensures machine { parts.new ≡ record parts.old { machine = (clear parts.old.desc parts.old.machine).machine } }
    ensures row { row.new ≡ with_events row.old (clear parts.old.desc parts.old.machine).events }
    ensures few { IsLonger most_cleared row.old row.new }
{
    row.push(Event::Clr(serial));
    let Some(violated) = clear_in_place(serial, parts) else {
        return;
    };
    let position = parts.rob.position_of(violated);
    fetch_anew(position, parts, row);
}

// The store with this serial is marked as cleared, where it stands and in the queue. The answer is the serial of the
// oldest load that it violates. The visibility point isn't past the store.
fn clear_in_place<R: RenameTaint>(serial: u64, parts: &mut Parts<R>) -> Option<u64>
    requires loads_pass { loads_pass parts.old.desc ≡ true }
    requires found { Some serial ≡ clearing parts.old.desc parts.old.machine }
    ensures machine { parts.new ≡ record parts.old { machine = with_cleared parts.old.desc parts.old.machine } }
    ensures violated { result ≡ violated_load parts.old.desc parts.old.machine }
    ensures stops { IfSome result (λ load. StopsBelow load parts.new.point parts.new.machine.window) }
{
    let position = parts.rob.position_of(serial);
    parts.rob.clear(position);
    parts.lsq.clear(serial)
}

// The load at this position, which passed a store wrongly, is dropped, with all that is younger: its bit of dependence
// is set, and it is fetched anew, with history and stack as they were before it.
fn fetch_anew<R: RenameTaint>(position: u32, parts: &mut Parts<R>, row: &mut Row)
    requires loads_pass { loads_pass parts.old.desc ≡ true }
    requires within { position < length parts.old.machine.window }
    requires stops { (load : Entry) → slice_get parts.old.machine.window position ≡ Some load
        → StopsBelow load.serial parts.old.point parts.old.machine.window }
    requires room { HasRoom most_anew row.old }
    ensures machine { (load : Entry) → slice_get parts.old.machine.window position ≡ Some load
        → parts.new ≡ record parts.old { machine = anew parts.old.desc load parts.old.machine } }
    ensures row { (load : Entry) → slice_get parts.old.machine.window position ≡ Some load
        → row.new ≡ with_events row.old (anew_events parts.old.desc load parts.old.machine) }
    ensures few { IsLonger most_anew row.old row.new }
{
    let load = parts.rob.lend(position);
    let serial = load.serial;
    let pc = load.item.pc;
    parts.history.restore(&load.item.checkpoint);
    row.push(Event::Vio(serial));
    row.push(parts.dependence.learn(pc));
    let dropped = parts.drop_from(serial, Some(pc));
    row.push(Event::Sq(dropped));
}
