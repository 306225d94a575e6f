//! The present history and stack.
ghost use Rattle.std.specs.Prelude.{◌≡◌, ◌<◌, ◌≤◌, ◌+◌, ◌*◌, ◌^◌, ◌%◌};
ghost use Rattle.rv_types.specs.Value.{one_if};
ghost use Rattle.window_model.specs.History.{counter_index, after_jump, checkpoint_after, no_checkpoint};
ghost use Rattle.window_model.specs.History.{after_pop, after_push, returns_to, after_direction, stack, youngest};
ghost use Rattle.history_pred.specs.Past.{InEach, IsAsked, counter_place, with_address, with_direction};

use crate::jump::{links, returns};
use crate::stack::{popped, pushed, youngest};
use machine_desc::Desc;
use rv_types::{Instr, Kind};
use std::marker::Model;
use window_model::{Checkpoint, Item};

/// Global history and return stack, seen as how many counters branches have, how many directions and addresses are
/// kept, and a checkpoint: what they are as the next item comes to be fetched. Each number is what some description
/// asks for.
#[derive(Drop)]
pub struct History {
    counters: u32,
    directions: u32,
    returns: u32,
    checkpoint: Checkpoint,
}

impl Model for History {
    ghost use Rattle.std.specs.Prelude.{◌<◌, ◌≤◌};
    ghost use Rattle.history_pred.specs.Past.{IsAsked, Past, past_code};

    ghost Value = { Past };

    ghost coded = { past_code };

    ghost view = { λ h. record {
      counters = h.counters;
      directions = h.directions;
      returns = h.returns;
      checkpoint = h.checkpoint;
    } };

    ghost invariant = { λ h. (0 < h.counters) × (h.directions ≤ 12) × (h.returns ≤ 16)
        × IsAsked h.counters h.directions h.returns };
}

impl History {
    /// No branch yet, and an empty stack, for as many counters, directions and addresses as the description says.
    pub fn new(desc: &Desc) -> History
        ensures { result ≡ record {
          counters = desc.now.predictor_counters;
          directions = desc.now.predictor_history;
          returns = desc.now.predictor_returns;
          checkpoint = no_checkpoint;
        } }
    {
        History {
            counters: desc.predictor_counters,
            directions: desc.predictor_history,
            returns: desc.predictor_returns,
            checkpoint: Checkpoint::default(),
        }
    }

    /// There is a description that asks for as many counters, directions and addresses. It does nothing.
    #[inline(always)]
    pub fn described(&self)
        ensures { IsAsked self.now.counters self.now.directions self.now.returns }
    {
        // The look inside is for the proof: by it the type's invariant is at hand, and that has the clause.
        let _ = &self.counters;
    }

    /// Where the counter of a branch stands that comes with this checkpoint: at its address divided by 4, xor the
    /// checkpoint's history, modulo the counters.
    pub fn index(&self, checkpoint: &Checkpoint, pc: u32) -> u32
        ensures place { result ≡ counter_place self.now checkpoint.now pc }
        ensures inside { result < self.now.counters }
        ensures machine { InEach self.now (λ d. result ≡ counter_index d checkpoint.now pc) }
    {
        (pc / 4 ^ checkpoint.history) % self.counters
    }

    /// A branch goes this way: its direction enters the history, and the oldest leaves it.
    pub fn shift(&mut self, taken: bool)
        ensures direction { self.new ≡ with_direction self.old taken }
        ensures machine { InEach self.old
            (λ d. self.new ≡ record self.old { checkpoint = after_direction d taken self.old.checkpoint }) }
    {
        self.checkpoint.history = shifted(self.checkpoint.history, self.directions, taken);
    }

    /// Pushes the address to which a call returns. Where the stack then has more than are kept, the oldest goes.
    pub fn push(&mut self, addr: u32)
        ensures address { self.new ≡ with_address self.old addr }
        ensures machine { InEach self.old
            (λ d. self.new ≡ record self.old { checkpoint = after_push d addr self.old.checkpoint }) }
    {
        self.checkpoint = pushed(&self.checkpoint, addr, self.returns);
    }

    /// Takes the youngest address off the stack and answers it. None exactly where the stack is empty.
    pub fn pop(&mut self) -> Option<u32>
        ensures address { result ≡ youngest (stack self.old.checkpoint) }
        ensures left { self.new ≡ record self.old { checkpoint = after_pop self.old.checkpoint } }
    {
        let address = youngest(&self.checkpoint);
        self.checkpoint = popped(&self.checkpoint);
        address
    }

    /// Lends the present history and stack.
    pub fn checkpoint(&self) -> &Checkpoint
        ensures { result.now ≡ self.now.checkpoint }
    {
        &self.checkpoint
    }

    /// Puts history and stack back to what they were at this checkpoint.
    pub fn restore(&mut self, checkpoint: &Checkpoint)
        ensures { self.new ≡ record self.old { checkpoint = checkpoint.now } }
    {
        self.checkpoint = *checkpoint;
    }

    /// Where an instruction is predicted to return to: the youngest address, where it is a return. None for any other
    /// instruction, and where the stack is empty.
    pub fn returns_to(&self, instr: &Instr) -> Option<u32>
        ensures { result ≡ returns_to instr.now self.now.checkpoint }
    {
        if returns(instr) {
            youngest(&self.checkpoint)
        } else {
            None
        }
    }

    /// History and stack go on over an item: a branch, which goes this way, enters the history; a jump that links
    /// pushes, and a return pops.
    #[inline(always)]
    pub fn follow(&mut self, item: &Item, taken: bool)
        ensures described { IsAsked self.old.counters self.old.directions self.old.returns }
        ensures sizes { self.new ≡ record self.old { checkpoint = self.new.checkpoint } }
        ensures machine { InEach self.old (λ d. self.new ≡ record self.old {
          checkpoint = checkpoint_after item.now.kind d item.now.pc item.now.instr taken self.old.checkpoint;
        }) }
    {
        self.described();
        match item.kind {
            Kind::Branch => self.shift(taken),
            Kind::Jal => self.jump(item.pc, &item.instr),
            Kind::Jalr => self.jump(item.pc, &item.instr),
            _ => (),
        }
    }

    // A jump that links pushes the address behind it, and a return pops.
    fn jump(&mut self, pc: u32, instr: &Instr)
        ensures sizes { self.new ≡ record self.old { checkpoint = self.new.checkpoint } }
        ensures machine { InEach self.old (λ d. self.new ≡ record self.old {
          checkpoint = after_jump d pc instr.now self.old.checkpoint;
        }) }
    {
        if links(instr) {
            self.push(pc.wrapping_add(4));
            return;
        }
        if returns(instr) {
            let _ = self.pop();
        }
    }
}

// A history of so many directions, after another direction.
fn shifted(history: u32, directions: u32, taken: bool) -> u32
    requires { directions ≤ 12 }
    ensures { result ≡ (2 * history + one_if taken) % 2 ^ directions }
{
    ((2 * history as u64 + taken as u64) % (1u64 << directions)) as u32
}
