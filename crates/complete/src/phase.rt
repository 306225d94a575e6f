//! The phase: entry by entry, from the oldest on.
ghost use Rattle.std.specs.Prelude.{◌≡◌, ◌<◌, false, length, Some, slice_get};
ghost use Rattle.std.specs.Option.{option_map};
ghost use Rattle.window_model.specs.declared.Entry.{Entry};
ghost use Rattle.window_model.specs.Fill.{complete, completes, completes_at};
ghost use Rattle.window_model.specs.Order.{is_waiting};
ghost use Rattle.window_model.specs.inner.Row.{HasRoom, IsLonger, most_done, with_events};
ghost use Rattle.core_parts.specs.Described.{with_window};
ghost use Rattle.complete.specs.Completed.{done_at};

use crate::waking::wake_readers;
use core_parts::Parts;
use rename_taint::RenameTaint;
use rob_ring::RobRing;
use window_model::{Event, Progress, Row};

/// Phase Complete: each entry that is Busy until this cycle becomes Done, oldest first, with its event.
pub fn complete<R: RenameTaint>(parts: &mut Parts<R>, row: &mut Row)
    requires room { HasRoom most_done row.old }
    ensures machine { parts.new ≡ record parts.old { machine = (complete parts.old.machine).machine } }
    ensures row { row.new ≡ with_events row.old (complete parts.old.machine).events }
    ensures few { IsLonger most_done row.old row.new }
{
    let mut from = 0;
    while let Some(i) = parts.rob.next_busy(from) {
        from = i + 1;
        if !is_due_at(&parts.rob, i, parts.cycle as u64) {
            continue;
        }
        let serial = finish(i, parts);
        row.push(Event::Done(serial));
    }
}

// Whether the entry at a position is Busy until this cycle. Only its state is read: few entries are due in a cycle.
fn is_due_at(rob: &RobRing, i: u32, cycle: u64) -> bool
    requires { i < length rob.now.entries }
    ensures { option_map (completes cycle) (slice_get rob.now.entries i) ≡ Some result }
{
    is_due(rob.lend(i).state, cycle)
}

// Whether an entry in this state is Busy until this cycle.
fn is_due(state: Progress, cycle: u64) -> bool
    ensures { result ≡ completes_at cycle state }
{
    match state {
        Progress::Busy(due) => due == cycle,
        _ => false,
    }
}

// The entry at a position, which doesn't wait, becomes Done: no station awaits it any more, unless its value is held
// back. The answer is its serial.
fn finish<R: RenameTaint>(i: u32, parts: &mut Parts<R>) -> u64
    requires { option_map (λ e. is_waiting e.state) (slice_get parts.old.machine.window i) ≡ Some false }
    ensures serial { option_map (λ e. e.serial) (slice_get parts.old.machine.window i) ≡ Some result }
    ensures machine { (e : Entry) → slice_get parts.old.machine.window i ≡ Some e
        → parts.new ≡ with_window (done_at i e parts.old.machine.window) parts.old }
{
    let serial = parts.rob.lend(i).serial;
    parts.rob.finish(i);
    let done = parts.rob.lend(i);
    wake_readers(done, &parts.desc, &parts.point, &mut parts.stations);
    serial
}
