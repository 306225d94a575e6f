//! The oldest operand that shows, on a walk over the entries of which something may issue, oldest first.
ghost use Rattle.std.specs.Prelude.{◌≡◌, [], length};
ghost use Rattle.visibility.specs.Point.{HasAdvanced};
ghost use Rattle.secret_marks.specs.Shown.{operands_shown};
ghost use Rattle.entry_marks.specs.Walk.{marks_of};

use crate::seen::Seen;
use core_parts::Parts;
use entry_marks::{Marks, Walk, shown_by};
use issue::{Candidate, candidate_at};
use rename_taint::RenameTaint;
use secret_marks::Shown;

impl<'a> Seen<'a> {
    ghost use Rattle.std.specs.Prelude.{◌≡◌, ◌<◌, [], length, slice_get, Some, true};
    ghost use Rattle.std.specs.Option.{option_map};
    ghost use Rattle.stations.specs.Stations.{is_able};
    ghost use Rattle.secret_marks.specs.Shown.{operands_shown};
    ghost use Rattle.shown_marks.specs.State.{HasTurn, ShowsInvariant, each_marks, marks_in, window_of};

    // The entry that waits at a station, where what it wants is there, as a candidate.
    fn candidate_at(&self, station: u32) -> Candidate<'_>
        requires stands { ShowsInvariant self.now }
        requires within { station < length self.now.stations.now.held }
        requires able { option_map is_able (slice_get self.now.stations.now.held station) ≡ Some true }
        ensures turn { HasTurn self.now result }
        ensures station { result.station ≡ station }
    {
        candidate_at(self.walk.rob, self.stations, station)
    }

    // The oldest entry whose first operand shows. Entries that don't wait, or lack what they want, are passed.
    fn operands_shown(&self) -> Option<Shown>
        requires stands { ShowsInvariant self.now }
        ensures { result ≡ operands_shown self.now.desc.now (marks_in self.now) [] [] (window_of self.now)
            (each_marks self.now) }
    {
        let mut from = 0;
        while let Some(station) = self.stations.next_able(from) {
            let candidate = self.candidate_at(station);
            if self.operand_shows(&candidate) {
                return Some(shown_by(candidate.entry));
            }
            from = station + 1;
        }
        None
    }
}

/// The oldest entry whose first operand tells, now or soon, an address or the time of a division, and is marked: on the
/// state that Issue finds, once the visibility point has moved over the window. None where no entry has one.
pub fn operands_shown<R: RenameTaint>(parts: &Parts<R>, marks: &Marks) -> Option<Shown>
    requires advanced { HasAdvanced parts.now.point parts.now.machine.window }
    requires step { length marks.now.window.items ≡ length parts.now.machine.window }
    ensures { result ≡ operands_shown parts.now.desc (marks_of marks.now) [] [] parts.now.machine.window
        marks.now.window.items }
{
    let seen = Seen {
        walk: Walk {
            rob: &parts.rob,
            sources: &parts.sources,
            lsq: &parts.lsq,
            marks: &marks.window,
            regs: &marks.regs,
            bytes: &marks.bytes,
            base: parts.ram.base(),
            cycle: parts.cycle,
        },
        stations: &parts.stations,
        point: &parts.point,
        desc: &parts.desc,
    };
    seen.operands_shown()
}
