//! What the phase decides as it goes over the entries that wait, oldest first (`docs/machine.md`, "Issue"). Every test
//! is made on the state before the phase.
ghost use Rattle.std.specs.Prelude.{◌≡◌, ◌<◌, ◌++◌, length};
ghost use Rattle.issue.specs.Decisions.{most_begun};
ghost use Rattle.issue.specs.Turns.{puts_by};

use crate::candidate::{Candidate, candidate_at};
use crate::seen::Seen;
use core_parts::{Decided, Put};
use rob_ring::Issued;
use unit_ports::Ports;
use window_model::Row;

// Notes what has then issued of the entry, if it changes.
pub(crate) fn note(decided: &mut Decided, candidate: &Candidate, after: Option<Issued>)
    requires few { length decided.old.puts.items < most_begun }
    ensures puts { decided.new.puts.items
        ≡ decided.old.puts.items ++ puts_by candidate.now.position candidate.now.station after }
    ensures load { decided.new.load ≡ decided.old.load }
{
    if let Some(issued) = after {
        decided.puts.push(Put {
            position: candidate.position,
            station: candidate.station,
            issued,
        });
    }
}

impl<'a> Seen<'a> {
    ghost use Rattle.std.specs.Prelude.{◌≡◌, ◌≤◌, ◌<◌, ◌+◌, ◌++◌, [], length, slice_get, Some, false, true};
    ghost use Rattle.std.specs.List.{flat_map};
    ghost use Rattle.std.specs.Option.{option_map};
    ghost use Rattle.window_model.specs.Order.{is_store};
    ghost use Rattle.window_model.specs.inner.Row.{HasRoom, IsLonger, most_issued, with_events};
    ghost use Rattle.unit_ports.specs.Laws.{LeftAfter};
    ghost use Rattle.stations.specs.Stations.{is_able};
    ghost use Rattle.issue.specs.Decisions.{DecidesFor, HadTurn, IsNothing, most_begun, turns_of};
    ghost use Rattle.issue.specs.Ports.{LeftFor, OnlyPorts, events_left, left_in_all};
    ghost use Rattle.issue.specs.Puts.{ArePuts};
    ghost use Rattle.issue.specs.State.{HasTurn, IssueInvariant, around_of, window_of};

    // The entry that waits at a station, where what it wants is there, as a candidate.
    fn candidate_at(&self, station: u32) -> Candidate<'_>
        requires stands { IssueInvariant self.now }
        requires within { station < length self.now.stations.now.held }
        requires able { option_map is_able (slice_get self.now.stations.now.held station) ≡ Some true }
        ensures turn { HasTurn self.now result }
        ensures station { result.station ≡ station }
    {
        candidate_at(self.rob, self.stations, station)
    }

    // An entry that is no store has its turn. What it comes to is made before it takes its port. A load that a store
    // was found to keep asks that store first.
    fn decide_whole(
        &self,
        candidate: &Candidate,
        ports: &mut Ports,
        decided: &mut Decided,
        row: &mut Row,
    )
        requires turn { HasTurn self.now candidate.now }
        requires whole { is_store candidate.now.entry.now.item.kind ≡ false }
        requires left { LeftFor self.now candidate.now ports.old }
        requires few { length decided.old.puts.items + left_in_all ports.old ≤ most_begun }
        requires room { HasRoom (events_left ports.old) row.old }
        ensures { HadTurn self.now candidate.now ports.old decided.old row.old ports.new decided.new row.new }
    {
        if self.is_still_kept(candidate) {
            return;
        }
        if !self.may_ask(candidate, ports) {
            return;
        }
        let computed = self.compute(candidate);
        if !self.has_besides(candidate, &computed.effect, &mut decided.kept) {
            return;
        }
        let after = self.begin(candidate, &computed, &mut decided.load, ports, row);
        let _ = ports.grant(candidate.entry.item.kind);
        note(decided, candidate, after);
    }

    // An entry has its turn.
    fn decide_entry(
        &self,
        candidate: &Candidate,
        ports: &mut Ports,
        decided: &mut Decided,
        row: &mut Row,
    )
        requires turn { HasTurn self.now candidate.now }
        requires left { LeftFor self.now candidate.now ports.old }
        requires few { length decided.old.puts.items + left_in_all ports.old ≤ most_begun }
        requires room { HasRoom (events_left ports.old) row.old }
        ensures { HadTurn self.now candidate.now ports.old decided.old row.old ports.new decided.new row.new }
    {
        if candidate.entry.is_store() {
            self.decide_store(candidate, ports, decided, row);
        } else {
            self.decide_whole(candidate, ports, decided, row);
        }
    }

    /// Goes over the stations whose entries are able to issue, oldest first: entries that lack what they want stay as
    /// they are. All ports of the cycle are left, and nothing is decided as yet.
    pub(crate) fn decide(&self, ports: &mut Ports, decided: &mut Decided, row: &mut Row)
        requires stands { IssueInvariant self.now }
        requires left { LeftAfter self.now.desc.now (around_of self.now) [] ports.old }
        requires few { left_in_all ports.old ≤ most_begun }
        requires events { events_left ports.old ≤ most_issued }
        requires nothing { IsNothing decided.old }
        requires room { HasRoom most_issued row.old }
        ensures decides { DecidesFor self.now decided.new ports.old.divider ports.new.divider }
        ensures puts { ArePuts (window_of self.now) decided.new.puts.items }
        ensures row { row.new ≡ with_events row.old (flat_map (λ b. b.events) (turns_of self.now)) }
        ensures only { OnlyPorts ports.old ports.new }
        ensures few { IsLonger most_issued row.old row.new }
    {
        let mut from = 0;
        while let Some(station) = self.stations.next_able(from) {
            let candidate = self.candidate_at(station);
            self.decide_entry(&candidate, ports, decided, row);
            from = station + 1;
        }
    }
}
