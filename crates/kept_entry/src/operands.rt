//! Whether all that an entry reads is there, but for what the defence holds back.
ghost use Rattle.std.specs.Prelude.{◌≡◌};
ghost use Rattle.window_model.specs.Order.{is_done, writes};

use crate::seen::Seen;
use rob_ring::Found;
use rv_types::{Reg, reads_of, writes_of};
use stations::Part;
use window_model::{Entry, Progress};

// Whether the entry writes the register.
fn writes(entry: &Entry, register: Reg) -> bool
    ensures { result ≡ writes register.number entry.now }
{
    match writes_of(&entry.item.instr) {
        Some(written) => written.number == register.number,
        None => false,
    }
}

// Whether the entry has been executed.
fn is_done(state: Progress) -> bool
    ensures { result ≡ is_done state }
{
    matches!(state, Progress::Done)
}

impl<'a> Seen<'a> {
    ghost use Rattle.std.specs.Prelude.{◌≡◌, ◌≤◌, [], length};
    ghost use Rattle.std.specs.List.{cons_option, list_all};
    ghost use Rattle.std.specs.Option.{option_map};
    ghost use Rattle.window_model.specs.Order.{before_at, sources};
    ghost use Rattle.slot_reasons.specs.Kept.{has_operands, is_made};
    ghost use Rattle.kept_entry.specs.State.{StandsAt};
    ghost use Rattle.refinement.specs.Telling.{own_of};

    // Whether the register's writer among the entries older than a position is Done, or there is none.
    fn is_made(&self, position: u32, register: Reg) -> bool
        requires { position ≤ length self.now.rob.now.entries }
        ensures { result ≡ is_made (before_at self.now.rob.now.entries position) register.number }
    {
        for i in (0..position).rev() {
            let entry = self.rob.lend(i);
            if writes(entry, register) {
                return is_done(entry.state);
            }
        }
        true
    }

    // Whether the writer of one of the sources of an entry is Done, or there is none. A source that its station doesn't
    // await any more isn't looked for.
    fn has_operand(&self, station: u32, part: Part, found: &Found<'_>, source: Option<Reg>) -> bool
        requires stands { StandsAt self.now station found.now }
        requires source { own_of part (sources found.now.entry.now)
            ≡ cons_option (option_map (λ r. r.number) source) [] }
        ensures { result ≡ list_all (is_made (before_at self.now.rob.now.entries found.now.position))
            (own_of part (sources found.now.entry.now)) }
    {
        if self.stations.ready_part(station, part) {
            return true;
        }
        match source {
            Some(register) => self.is_made(found.position, register),
            None => true,
        }
    }

    /// Whether the writer of each source of the entry at a station is Done, or there is none.
    pub(crate) fn has_operands(&self, station: u32, found: &Found<'_>) -> bool
        requires stands { StandsAt self.now station found.now }
        ensures { result ≡ has_operands (before_at self.now.rob.now.entries found.now.position) found.now.entry.now }
    {
        let [first, second] = reads_of(&found.entry.item.instr);
        if !self.has_operand(station, Part::Address, found, first) {
            return false;
        }
        self.has_operand(station, Part::Data, found, second)
    }
}
