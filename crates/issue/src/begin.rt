//! What an entry does in one piece that is granted a port, by its kind (`docs/machine.md`, "Issue"). Its events go into
//! the row.
ghost use Rattle.std.specs.Prelude.{◌≡◌, None, Some};
ghost use Rattle.rv_effect.specs.Seen.{isa_effect};
ghost use Rattle.window_model.specs.Issue.{executing_until, fault_if, outcome};
ghost use Rattle.rob_ring.specs.Issued.{issued_of};

use crate::candidate::Candidate;
use crate::loads::Loaded;
use crate::operands::Computed;
use crate::seen::Seen;
use rob_ring::Issued;
use rv_alu::div_time;
use rv_effect::Effect;
use rv_types::{Cause, Kind};
use unit_ports::Ports;
use window_model::{Access, Entry, Event, Outcome, Progress, Row};

/// What an effect comes to with this value and fault.
pub(crate) fn outcome(effect: &Effect, value: u32, fault: Option<Cause>) -> Outcome
    ensures { result ≡ outcome (isa_effect effect.now) value fault }
{
    Outcome {
        value,
        next: effect.next,
        addr: effect.addr,
        stored: effect.stored,
        fault,
    }
}

// The fault of a jump to an address that is no multiple of 4.
fn fault_if(misaligned: bool) -> Option<Cause>
    ensures { result ≡ fault_if misaligned }
{
    if misaligned {
        return Some(Cause::jump_misaligned());
    }
    None
}

/// What has issued of the entry as it executes until this cycle.
pub(crate) fn begun(cycle: u32, entry: &Entry, due: u64, outcome: Outcome) -> Issued
    ensures { result ≡ issued_of (executing_until cycle entry.now due outcome) }
{
    Issued {
        state: Progress::Busy(due),
        outcome: Some(outcome),
        issued: Some(cycle as u64),
        addr_due: entry.addr_due,
        data_due: entry.data_due,
    }
}

impl<'a> Seen<'a> {
    ghost use Rattle.std.specs.Prelude.{◌≡◌, Some, false, true};
    ghost use Rattle.rv_types.specs.declared.Kind.TheVariants as kind;
    ghost use Rattle.rv_effect.specs.Seen.{isa_effect};
    ghost use Rattle.window_model.specs.MayIssue.{goes_behind};
    ghost use Rattle.window_model.specs.Issue.{begin_as, is_division};
    ghost use Rattle.window_model.specs.Order.{is_load, is_store};
    ghost use Rattle.window_model.specs.inner.Row.{HasRoom};
    ghost use Rattle.issue.specs.Operands.{first_of};
    ghost use Rattle.issue.specs.Ports.{most_events_of};
    ghost use Rattle.issue.specs.State.{HasTurn, here};
    ghost use Rattle.issue.specs.Turns.{Comes, begin_entry, divider_by, effect_here, load_by};

    // A division takes the divider for its time, which its first operand tells.
    fn begin_division(
        &self,
        candidate: &Candidate,
        computed: &Computed,
        ports: &mut Ports,
        row: &mut Row,
    ) -> Issued
        requires effect { isa_effect computed.now.effect ≡ effect_here self.now candidate.now }
        requires first { computed.now.first ≡ first_of self.now candidate.now }
        requires room { HasRoom 1 row.old }
        ensures divider { ports.new ≡ record ports.old {
          divider = divider_by true self.now candidate.now ports.old.divider;
        } }
        ensures comes { Comes (here (begin_as kind.Div) self.now candidate.now) (Some result) row.old row.new }
    {
        let made = &computed.effect;
        let time = div_time(candidate.entry.op(), computed.first);
        let due = self.cycle as u64 + time as u64;
        ports.divide(due, candidate.entry.serial);
        row.push(Event::Div(candidate.entry.serial, time));
        begun(
            self.cycle,
            candidate.entry,
            due,
            outcome(made, made.value, None),
        )
    }

    // A multiplication executes for the description's latency of multiplications.
    fn begin_product(&self, candidate: &Candidate, made: &Effect, row: &mut Row) -> Issued
        requires effect { isa_effect made.now ≡ effect_here self.now candidate.now }
        requires room { HasRoom 1 row.old }
        ensures { Comes (here (begin_as kind.Mul) self.now candidate.now) (Some result) row.old row.new }
    {
        row.push(Event::Mul(candidate.entry.serial));
        let due = self.cycle as u64 + self.desc.units_mul_latency as u64;
        begun(
            self.cycle,
            candidate.entry,
            due,
            outcome(made, made.value, None),
        )
    }

    // What takes one cycle of an arithmetic unit.
    fn begin_simple(&self, candidate: &Candidate, made: &Effect, row: &mut Row) -> Issued
        requires effect { isa_effect made.now ≡ effect_here self.now candidate.now }
        requires room { HasRoom 1 row.old }
        ensures { Comes (here (begin_as kind.Alu) self.now candidate.now) (Some result) row.old row.new }
    {
        row.push(Event::Alu(candidate.entry.serial));
        let outcome = outcome(made, made.value, fault_if(made.misaligned));
        begun(self.cycle, candidate.entry, self.cycle as u64 + 1, outcome)
    }

    /// What has then issued of the entry, which is no store, by its kind; None where it stays as it is. A load leaves
    /// what its access came to, a division the divider. No port is taken.
    pub(crate) fn begin(
        &self,
        candidate: &Candidate,
        computed: &Computed,
        load: &mut Option<Access>,
        ports: &mut Ports,
        row: &mut Row,
    ) -> Option<Issued>
        requires turn { HasTurn self.now candidate.now }
        requires effect { isa_effect computed.now.effect ≡ effect_here self.now candidate.now }
        requires first { computed.now.first ≡ first_of self.now candidate.now }
        requires whole { is_store candidate.now.entry.now.item.kind ≡ false }
        requires goes { is_load candidate.now.entry.now.item.kind ≡ true
            → here goes_behind self.now candidate.now ≡ true }
        requires room { HasRoom (most_events_of candidate.now.entry.now.item.kind) row.old }
        ensures comes { Comes (here begin_entry self.now candidate.now) result row.old row.new }
        ensures load { load.new ≡ load_by (is_load candidate.now.entry.now.item.kind) self.now candidate.now load.old }
        ensures divider { ports.new ≡ record ports.old {
          divider = divider_by (is_division candidate.now.entry.now.item.kind) self.now candidate.now ports.old.divider;
        } }
    {
        let made = &computed.effect;
        match candidate.entry.item.kind {
            Kind::Load => {
                let found = self.load(candidate, made);
                *load = Some(found.access);
                self.begin_load(candidate, made, &found, row)
            }
            Kind::Div => Some(self.begin_division(candidate, computed, ports, row)),
            Kind::Mul => Some(self.begin_product(candidate, made, row)),
            _ => Some(self.begin_simple(candidate, made, row)),
        }
    }
}
