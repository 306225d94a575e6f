//! The parts of a store (`docs/machine.md`, "Issue"): its address part and its data part, each at a port of its own.
ghost use Rattle.std.specs.Prelude.{◌≡◌};
ghost use Rattle.window_model.specs.Issue.{busy_until_both, so_far};
ghost use Rattle.rob_ring.specs.Issued.{issued_of};
ghost use Rattle.issue.specs.Ports.{has_issued};

use crate::candidate::Candidate;
use crate::decide::note;
use crate::seen::Seen;
use core_parts::Decided;
use rob_ring::Issued;
use rv_effect::Effect;
use stations::Part;
use unit_ports::Ports;
use window_model::{Entry, Event, Outcome, Progress, Row};

// A store's outcome so far, by its next address.
fn so_far(outcome: &Option<Outcome>, next: u32) -> Outcome
    ensures { result ≡ so_far outcome.now next }
{
    match outcome {
        Some(outcome) => *outcome,
        None => Outcome {
            value: 0,
            next,
            addr: 0,
            stored: 0,
            fault: None,
        },
    }
}

// A store in this state executes once both parts have issued, until the later one is known.
fn busy_until_both(address: Option<u64>, stored: Option<u64>, state: Progress) -> Progress
    ensures { result ≡ busy_until_both address stored state }
{
    match (address, stored) {
        (Some(address), Some(stored)) => Progress::Busy(address.max(stored)),
        _ => state,
    }
}

// What has issued of an entry.
fn issued_of(entry: &Entry) -> Issued
    ensures { result ≡ issued_of entry.now }
{
    Issued {
        state: entry.state,
        outcome: entry.outcome,
        issued: entry.issued,
        addr_due: entry.addr_due,
        data_due: entry.data_due,
    }
}

// The entry executes once both its parts have issued.
fn if_both(issued: &mut Issued)
    ensures { issued.new ≡ record issued.old {
      state = busy_until_both issued.old.addr_due issued.old.data_due issued.old.state;
    } }
{
    issued.state = busy_until_both(issued.addr_due, issued.data_due, issued.state);
}

// Whether a part of a store has issued.
fn has_issued(entry: &Entry, part: Part) -> bool
    ensures { result ≡ has_issued part entry.now }
{
    match part {
        Part::Address => entry.addr_due.is_some(),
        Part::Data => entry.data_due.is_some(),
    }
}

impl<'a> Seen<'a> {
    ghost use Rattle.std.specs.Prelude.{◌≡◌, ◌≤◌, ◌+◌, Bool, [], ◌∷◌, true, length};
    ghost use Rattle.rv_types.specs.Value.{one_if};
    ghost use Rattle.rv_effect.specs.Seen.{isa_effect};
    ghost use Rattle.window_model.specs.declared.Event.TheVariants as event;
    ghost use Rattle.window_model.specs.Delay.{may_show};
    ghost use Rattle.window_model.specs.Ports.{AddressPort, DataPort};
    ghost use Rattle.window_model.specs.Issue.{with_address, with_data};
    ghost use Rattle.window_model.specs.Order.{is_store};
    ghost use Rattle.window_model.specs.inner.Issue.{data_events};
    ghost use Rattle.window_model.specs.inner.Row.{HasRoom, with_events};
    ghost use Rattle.rob_ring.specs.Issued.{issued_of, with_issued};
    ghost use Rattle.unit_ports.specs.Laws.{if_asked};
    ghost use Rattle.unit_ports.specs.Ports.{Ports};
    ghost use Rattle.issue.specs.Decisions.{HadTurn, most_begun};
    ghost use Rattle.issue.specs.Ports.{LeftFor, events_left, granted_at, left_in_all, may_here, part_port, part_shows};
    ghost use Rattle.issue.specs.State.{HasTurn, around_of, before_of};
    ghost use Rattle.issue.specs.Turns.{Goes, parts_by};

    // Whether a part of the store may show its operand: the data part shows nothing as it issues.
    fn part_shows(&self, candidate: &Candidate, part: Part) -> bool
        requires turn { HasTurn self.now candidate.now }
        ensures { result ≡ part_shows part (may_show self.now.desc.now (before_of self.now candidate.now)) }
    {
        match part {
            Part::Address => self.may_show(candidate),
            Part::Data => true,
        }
    }

    // Whether a part of the store may issue: it hasn't issued, its source is there, and it may show that. In version 1
    // both sources are there, since the store has its turn, and both parts go where the store may show its operands.
    fn may_part(&self, candidate: &Candidate, part: Part) -> bool
        requires turn { HasTurn self.now candidate.now }
        requires store { is_store candidate.now.entry.now.item.kind ≡ true }
        ensures { result ≡ may_here (part_port part) self.now candidate.now }
    {
        if has_issued(candidate.entry, part) {
            return false;
        }
        if self.desc.stores_in_one() {
            return self.may_show(candidate);
        }
        if !self.part_shows(candidate, part) {
            return false;
        }
        self.stations.ready_part(candidate.station, part)
    }

    // Whether the address part is granted its port, which it takes where it may issue.
    fn grant_address(&self, candidate: &Candidate, ports: &mut Ports) -> bool
        requires turn { HasTurn self.now candidate.now }
        requires store { is_store candidate.now.entry.now.item.kind ≡ true }
        requires left { LeftFor self.now candidate.now ports.old }
        ensures granted { result ≡ granted_at AddressPort self.now candidate.now }
        ensures asked { ports.new ≡ if_asked (may_here AddressPort self.now candidate.now) AddressPort ports.old }
    {
        if !self.may_part(candidate, Part::Address) {
            return false;
        }
        ports.grant(candidate.entry.item.kind)
    }

    // Whether the data part is granted its port, once the address part has asked for its own.
    fn grant_data(&self, candidate: &Candidate, ports: &mut Ports) -> bool
        requires turn { HasTurn self.now candidate.now }
        requires store { is_store candidate.now.entry.now.item.kind ≡ true }
        requires left { (may : Bool) × (first : Ports)
            × LeftFor self.now candidate.now first × (ports.old ≡ if_asked may AddressPort first) }
        ensures granted { result ≡ granted_at DataPort self.now candidate.now }
        ensures asked { ports.new ≡ if_asked (may_here DataPort self.now candidate.now) DataPort ports.old }
    {
        if !self.may_part(candidate, Part::Data) {
            return false;
        }
        ports.grant_data()
    }

    // The address part issues, with its event in the row: with its address the store's fault is known.
    fn issue_address(&self, entry: &Entry, issued: &mut Issued, made: &Effect, row: &mut Row)
        requires room { HasRoom 1 row.old }
        ensures issued { issued.new ≡ issued_of
            (with_address (around_of self.now) (isa_effect made.now) (with_issued issued.old entry.now)) }
        ensures row { row.new ≡ with_events row.old (event.Agu entry.now.serial ∷ []) }
    {
        row.push(Event::Agu(entry.serial));
        let mut outcome = so_far(&issued.outcome, made.next);
        outcome.addr = made.addr;
        outcome.fault = self.ram.store_fault(made.addr, entry.bytes());
        issued.outcome = Some(outcome);
        issued.addr_due = Some(self.cycle as u64 + 1);
        if_both(issued);
    }

    // The data part issues, which has an event of its own in version 2 alone.
    fn issue_data(&self, entry: &Entry, issued: &mut Issued, made: &Effect, row: &mut Row)
        requires room { HasRoom 1 row.old }
        ensures issued { issued.new ≡ issued_of
            (with_data (around_of self.now) (isa_effect made.now) (with_issued issued.old entry.now)) }
        ensures row { row.new ≡ with_events row.old (data_events self.now.desc.now entry.now) }
    {
        if !self.desc.stores_in_one() {
            row.push(Event::Std(entry.serial));
        }
        let mut outcome = so_far(&issued.outcome, made.next);
        outcome.stored = made.stored;
        issued.outcome = Some(outcome);
        issued.data_due = Some(self.cycle as u64 + 1);
        if_both(issued);
    }

    // What has issued of the entry once those of its parts have that are granted their ports, the address first.
    fn after_parts(
        &self,
        candidate: &Candidate,
        address: bool,
        stored: bool,
        row: &mut Row,
    ) -> Issued
        requires turn { HasTurn self.now candidate.now }
        requires room { HasRoom (one_if address + one_if stored) row.old }
        ensures { Goes (parts_by address stored self.now candidate.now) result row.old row.new }
    {
        let made = self.compute(candidate).effect;
        let mut issued = issued_of(candidate.entry);
        if address {
            self.issue_address(candidate.entry, &mut issued, &made, row);
        }
        if stored {
            self.issue_data(candidate.entry, &mut issued, &made, row);
        }
        issued
    }

    /// A store has its turn: each of its parts takes its port where it may issue, and issues where it is granted one.
    pub(crate) fn decide_store(
        &self,
        candidate: &Candidate,
        ports: &mut Ports,
        decided: &mut Decided,
        row: &mut Row,
    )
        requires turn { HasTurn self.now candidate.now }
        requires store { is_store candidate.now.entry.now.item.kind ≡ true }
        requires left { LeftFor self.now candidate.now ports.old }
        requires few { length decided.old.puts.items + left_in_all ports.old ≤ most_begun }
        requires room { HasRoom (events_left ports.old) row.old }
        ensures { HadTurn self.now candidate.now ports.old decided.old row.old ports.new decided.new row.new }
    {
        let address = self.grant_address(candidate, ports);
        let stored = self.grant_data(candidate, ports);
        if address || stored {
            let after = self.after_parts(candidate, address, stored, row);
            note(decided, candidate, Some(after));
        }
    }
}
