//! A load that is granted its port (`docs/machine.md`, "Loads"): its access, its value from older stores' bytes and
//! memory's, and what becomes of it.
ghost use Rattle.std.specs.Prelude.{◌≡◌};
ghost use Rattle.window_model.specs.Access.{look_events};
ghost use Rattle.window_model.specs.inner.Row.{HasRoom, with_events};

use crate::begin::{begun, outcome};
use crate::candidate::Candidate;
use crate::seen::Seen;
use lsq::{LoadRequest, Merged};
use rob_ring::Issued;
use rv_alu::extend;
use rv_effect::Effect;
use window_model::{Access, Event, Line, Lines, Request, Row};

/// What a load finds: how its bytes are served, and its value.
#[derive(Clone, Copy, Debug, PartialEq, Eq)]
pub(crate) struct Loaded {
    /// What the load's access comes to.
    pub(crate) access: Access,
    /// The load's value, where it has no fault.
    pub(crate) value: u32,
}

// An event for each line that a load looks up, and for what is prefetched.
fn tell_lines(serial: u64, lines: &Lines, ahead: Option<Request>, row: &mut Row)
    requires room { HasRoom 3 row.old }
    ensures { row.new ≡ with_events row.old (look_events serial lines.now ahead) }
{
    row.push(Event::Ld(serial, lines.lower.line(), lines.lower.look()));
    if let Some(upper) = &lines.upper {
        row.push(Event::Ld(serial, upper.line(), upper.look()));
    }
    if let Some(request) = ahead {
        row.push(Event::Pf(request.line, request.source()));
    }
}

impl<'a> Seen<'a> {
    ghost use Rattle.std.specs.Prelude.{◌≡◌, ◌&&◌, not, None, true};
    ghost use Rattle.rv_types.specs.declared.Kind.TheVariants as kind;
    ghost use Rattle.rv_types.specs.Memory.{load_fault, range};
    ghost use Rattle.rv_types.specs.Value.{bytes_in};
    ghost use Rattle.rv_effect.specs.Seen.{isa_effect};
    ghost use Rattle.window_model.specs.Access.{due_by, due_of};
    ghost use Rattle.window_model.specs.MayIssue.{goes_behind, stores_let};
    ghost use Rattle.window_model.specs.Issue.{access_of, begin_as};
    ghost use Rattle.window_model.specs.Retire.{byte_count};
    ghost use Rattle.window_model.specs.inner.Row.{HasRoom};
    ghost use Rattle.visibility.specs.Point.{is_hidden};
    ghost use Rattle.issue.specs.State.{HasTurn, around_of, before_of, here};
    ghost use Rattle.issue.specs.Pending.{passes_here};
    ghost use Rattle.issue.specs.Turns.{Comes, access_from, effect_here, loads, value_from};

    // Whether older stores have all bytes, and none of them hides its address.
    fn is_forwarded(&self, merged: &Merged) -> bool
        ensures { result ≡ (merged.now.covered && not (is_hidden self.now.point.now.serial merged.now.root)) }
    {
        merged.covered && !self.point.tainted(merged.root)
    }

    // What a load without fault finds by what it asks for.
    fn load_sound(&self, candidate: &Candidate, request: &LoadRequest) -> Loaded
        requires turn { HasTurn self.now candidate.now }
        requires size { bytes_in request.now.width ≡ byte_count candidate.now.entry.now }
        requires lets { stores_let self.now.desc.now.stt_model (passes_here self.now candidate.now)
            (range request.now.addr (byte_count candidate.now.entry.now)) (before_of self.now candidate.now) ≡ true }
        requires sound { load_fault self.now.ram.now request.now.addr (byte_count candidate.now.entry.now) ≡ None }
        ensures access { result.access ≡ here (access_from request.now.addr) self.now candidate.now }
        ensures value { result.value ≡ here (value_from request.now.addr) self.now candidate.now }
    {
        let merged = self.lsq.merge(candidate.entry.serial, request, self.ram);
        let forwarded = self.is_forwarded(&merged);
        Loaded {
            access: self.find(forwarded, request.addr, candidate.entry.bytes()),
            value: extend(candidate.entry.op(), merged.value),
        }
    }

    /// What a load, behind stores that let it go, finds by what its instruction makes of its operands.
    pub(crate) fn load(&self, candidate: &Candidate, made: &Effect) -> Loaded
        requires turn { HasTurn self.now candidate.now }
        requires goes { here goes_behind self.now candidate.now ≡ true }
        requires effect { isa_effect made.now ≡ effect_here self.now candidate.now }
        ensures access { result.access ≡ here access_of self.now candidate.now }
        ensures begun { loads self.now candidate.now made.now result
            ≡ here (begin_as kind.Load) self.now candidate.now }
    {
        let request = self.load_request(candidate, made);
        match request.fault {
            None => self.load_sound(candidate, &request),
            Some(cause) => Loaded {
                access: Access::Faults(cause),
                value: 0,
            },
        }
    }

    // The cycle in which a line is there.
    fn due_of(&self, line: &Line) -> u64
        ensures { result ≡ due_of self.now.desc.now (around_of self.now) line.now }
    {
        let cycle = self.cycle as u64;
        match line {
            Line::Hits(_) => cycle + self.desc.cache_hit_latency as u64,
            Line::Joins(_, due) => *due,
            Line::Takes(request) => request.due(cycle, self.desc),
        }
    }

    // The cycle in which all lines of an access are there.
    fn due_by(&self, lines: &Lines) -> u64
        ensures { result ≡ due_by self.now.desc.now (around_of self.now) lines.now }
    {
        let lower = self.due_of(&lines.lower);
        match &lines.upper {
            Some(upper) => lower.max(self.due_of(upper)),
            None => lower,
        }
    }

    /// A load by what it found. One that finds too few miss registers stays as it is.
    pub(crate) fn begin_load(
        &self,
        candidate: &Candidate,
        made: &Effect,
        found: &Loaded,
        row: &mut Row,
    ) -> Option<Issued>
        requires room { HasRoom 3 row.old }
        ensures { Comes (loads self.now candidate.now made.now found.now) result row.old row.new }
    {
        let soon = self.cycle as u64 + 1;
        let serial = candidate.entry.serial;
        match found.access {
            Access::Faults(cause) => {
                row.push(Event::LdFault(serial));
                Some(begun(
                    self.cycle,
                    candidate.entry,
                    soon,
                    outcome(made, 0, Some(cause)),
                ))
            }
            Access::Forwards => {
                row.push(Event::LdForward(serial));
                Some(begun(
                    self.cycle,
                    candidate.entry,
                    soon,
                    outcome(made, found.value, None),
                ))
            }
            Access::Looks(lines, ahead) => {
                tell_lines(serial, &lines, ahead, row);
                let value = outcome(made, found.value, None);
                Some(begun(self.cycle, candidate.entry, self.due_by(&lines), value))
            }
            Access::Waits => None,
        }
    }
}
