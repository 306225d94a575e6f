//! The values of an entry's sources (`docs/machine.md`, "Writers and roots"): a writer's that is in flight, else the
//! retired one.
ghost use Rattle.std.specs.Prelude.{◌≡◌, Some};
ghost use Rattle.std.specs.Option.{option_map};
ghost use Rattle.rv_types.specs.Regs.{reads_of};
ghost use Rattle.window_model.specs.Order.{from_writer};
ghost use Rattle.window_model.specs.Serials.{Rise};
ghost use Rattle.refinement.specs.Writers.{in_flight};
ghost use Rattle.issue.specs.Operands.{value_by};

use crate::candidate::Candidate;
use crate::seen::Seen;
use rob_ring::RobRing;
use rv_effect::{Effect, effect};
use rv_types::{REGISTERS, Reg, reads_of};

// The value of the entry with this serial, if it is in flight; else this one.
#[inline(always)]
fn value_in_flight(rob: &RobRing, serial: u64, retired: u32) -> u32
    requires rise { Rise rob.now.entries }
    ensures { result ≡ from_writer (in_flight rob.now.entries (Some serial)) retired }
{
    match rob.find(serial) {
        Some(found) => found.entry.value(),
        None => retired,
    }
}

// The value of a register whose writer has this serial: the retired one where the writer isn't in flight.
#[inline(always)]
fn register_value(rob: &RobRing, regs: &[u32; REGISTERS], register: Reg, writer: Option<u64>) -> u32
    requires rise { Rise rob.now.entries }
    ensures { result ≡ value_by regs.now rob.now.entries (Some register.number) writer }
{
    let retired = regs[register.number as usize];
    match writer {
        Some(serial) => value_in_flight(rob, serial, retired),
        None => retired,
    }
}

/// The value of a source whose writer has this serial, 0 where there is no source.
#[inline(always)]
pub(crate) fn source_value(
    rob: &RobRing,
    regs: &[u32; REGISTERS],
    source: Option<Reg>,
    writer: Option<u64>,
) -> u32
    requires rise { Rise rob.now.entries }
    ensures { result ≡ value_by regs.now rob.now.entries (option_map (λ r. r.number) source) writer }
{
    match source {
        Some(register) => register_value(rob, regs, register, writer),
        None => 0,
    }
}

/// The values of an entry's first and second source, 0 where it has none.
#[derive(Clone, Copy, Debug, PartialEq, Eq)]
pub(crate) struct Operands {
    pub(crate) first: u32,
    pub(crate) second: u32,
}

/// What an entry's instruction makes of its operands, computed once in its turn.
#[derive(Clone, Copy, Debug, PartialEq, Eq)]
pub(crate) struct Computed {
    /// The first operand.
    pub(crate) first: u32,
    /// What the instruction makes of both.
    pub(crate) effect: Effect,
}

impl<'a> Seen<'a> {
    ghost use Rattle.std.specs.Prelude.{◌≡◌};
    ghost use Rattle.rv_effect.specs.Seen.{isa_effect};
    ghost use Rattle.window_model.specs.MayIssue.{address_of};
    ghost use Rattle.issue.specs.Operands.{first_of, second_of};
    ghost use Rattle.issue.specs.State.{HasTurn, before_of};
    ghost use Rattle.issue.specs.Turns.{effect_here};

    // The values of the entry's sources.
    #[inline(always)]
    fn operands(&self, candidate: &Candidate) -> Operands
        requires turn { HasTurn self.now candidate.now }
        ensures first { result.first ≡ first_of self.now candidate.now }
        ensures second { result.second ≡ second_of self.now candidate.now }
    {
        let [first, second] = reads_of(&candidate.entry.item.instr);
        let writers = self.sources_of(candidate).writers;
        Operands {
            first: source_value(self.rob, self.regs, first, writers[0]),
            second: source_value(self.rob, self.regs, second, writers[1]),
        }
    }

    // The value of the entry's first source.
    #[inline(always)]
    fn first(&self, candidate: &Candidate) -> u32
        requires turn { HasTurn self.now candidate.now }
        ensures { result ≡ first_of self.now candidate.now }
    {
        let [first, _] = reads_of(&candidate.entry.item.instr);
        source_value(
            self.rob,
            self.regs,
            first,
            self.sources_of(candidate).writers[0],
        )
    }

    /// The address of a load or store, which its base alone decides.
    #[inline(always)]
    pub(crate) fn address(&self, candidate: &Candidate) -> u32
        requires turn { HasTurn self.now candidate.now }
        ensures { result ≡ address_of self.now.regs.now (before_of self.now candidate.now) candidate.now.entry.now }
    {
        let item = &candidate.entry.item;
        effect(item.pc, &item.instr, self.first(candidate), 0).addr
    }

    /// What the entry's instruction makes of the values of its sources.
    #[inline(always)]
    pub(crate) fn compute(&self, candidate: &Candidate) -> Computed
        requires turn { HasTurn self.now candidate.now }
        ensures first { result.first ≡ first_of self.now candidate.now }
        ensures effect { isa_effect result.effect ≡ effect_here self.now candidate.now }
    {
        let operands = self.operands(candidate);
        let item = &candidate.entry.item;
        Computed {
            first: operands.first,
            effect: effect(item.pc, &item.instr, operands.first, operands.second),
        }
    }
}
