//! The phase: an entry is picked, teaches the predictor, and becomes resolved; where it squashes, what is younger
//! goes.
ghost use Rattle.std.specs.Prelude.{◌≡◌, Some};
ghost use Rattle.visibility.specs.Point.{HasAdvanced};
ghost use Rattle.window_model.specs.Resolve.{resolve, true_checkpoint};
ghost use Rattle.window_model.specs.inner.Row.{HasRoom, IsLonger, most_resolved, with_events};
ghost use Rattle.resolve.specs.Taken.{resolving, true_next};
ghost use Rattle.history_pred.specs.Past.{InEach};

use branch_resolve::{Resolution, pick};
use core_parts::Parts;
use history_pred::History;
use rename_taint::RenameTaint;
use window_model::{Entry, Event, Row};

/// Phase Resolve, once the visibility point has moved over the window: the oldest branch or JALR that may be resolved
/// is marked as resolved and teaches the predictor, with its events in the row. Where it was wrongly predicted or
/// faults, all younger entries and all fetched items are dropped, and fetching goes on at its next address, or nowhere
/// after a fault, with history and stack as they are behind it.
pub fn resolve<R: RenameTaint>(parts: &mut Parts<R>, row: &mut Row)
    requires advanced { HasAdvanced parts.old.point parts.old.machine.window }
    requires room { HasRoom most_resolved row.old }
    ensures machine { parts.new ≡ record parts.old { machine = (resolve parts.old.desc parts.old.machine).machine } }
    ensures row { row.new ≡ with_events row.old (resolve parts.old.desc parts.old.machine).events }
    ensures few { IsLonger most_resolved row.old row.new }
{
    let Some(position) = pick(&parts.rob, &parts.point, &parts.sources, &parts.desc) else {
        return;
    };
    resolve_at(position, parts, row);
}

// Resolves the entry at this position: it teaches the predictor, and is marked as resolved where it stands.
fn resolve_at<R: RenameTaint>(position: u32, parts: &mut Parts<R>, row: &mut Row)
    requires picked { Some position ≡ resolving parts.old.desc parts.old.machine.window }
    requires room { HasRoom most_resolved row.old }
    ensures machine { parts.new ≡ record parts.old { machine = (resolve parts.old.desc parts.old.machine).machine } }
    ensures row { row.new ≡ with_events row.old (resolve parts.old.desc parts.old.machine).events }
    ensures few { IsLonger most_resolved row.old row.new }
{
    let entry = parts.rob.lend(position);
    let serial = entry.serial;
    let resolution = branch_resolve::resolve(entry, &parts.history, &mut parts.predictor, row);
    parts.rob.resolve(position);
    if let Resolution::Right = resolution {
        return;
    }
    go_back_behind(parts.rob.lend(position), &mut parts.history);
    let dropped = parts.drop_from(serial + 1, true_next(resolution));
    row.push(Event::Sq(dropped));
}

// History and stack become those behind an entry: its checkpoint, followed by the true direction of a branch, or by a
// jump's own push or pop.
fn go_back_behind(entry: &Entry, history: &mut History)
    ensures { InEach history.old (λ d. history.new ≡ record history.old { checkpoint = true_checkpoint d entry.now }) }
{
    history.restore(&entry.item.checkpoint);
    history.follow(&entry.item, entry.is_taken());
}

// Where fetching goes on after an entry that was not rightly predicted: nowhere after a fault.
fn true_next(resolution: Resolution) -> Option<u32>
    ensures { result ≡ true_next resolution }
{
    match resolution {
        Resolution::Wrong(next) => Some(next),
        _ => None,
    }
}
