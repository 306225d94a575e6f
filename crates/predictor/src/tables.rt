//! The counters and the targets.
ghost use Rattle.std.specs.Prelude.{◌≡◌, ◌<◌, length, replicate, slice_set, IfOk, None, Some};
ghost use Rattle.window_model.specs.Resolve.{counter_after_branch};
ghost use Rattle.window_model.specs.declared.Event.TheVariants as event;
ghost use Rattle.predictor.specs.Tables.{IsAsked, target_place, is_taken, target_if, target_at, counter_after};

use machine_desc::Desc;
use rv_types::NoMemory;
use std::alloc::Global;
use std::marker::Model;
use window_model::{Event, Target, index};

/// The value of each counter at first.
const COUNTER_START: u8 = 1;

/// From this value on a counter predicts that its branch is taken.
const TAKEN_FROM: u8 = 2;

/// The most that a counter comes to.
const COUNTER_MAX: u8 = 3;

/// The predictor of branches and JALRs, seen as the counters and the targets. There are as many as some description
/// asks for.
#[derive(Drop)]
pub struct Predictor {
    counters: Vec<u8>,
    targets: Vec<Option<Target>>,
}

impl Model for Predictor {
    ghost use Rattle.std.specs.Prelude.{◌<◌, ◌^◌, vec_len};
    ghost use Rattle.predictor.specs.Tables.{IsAsked, Tables, tables_code};

    ghost Value = { Tables };

    ghost coded = { tables_code };

    ghost view = { λ p. record { counters = p.counters.items; targets = p.targets.items } };

    ghost invariant = { λ p. (0 < vec_len p.targets) × (vec_len p.targets < 2 ^ 32)
        × IsAsked (vec_len p.counters) (vec_len p.targets) };
}

impl Predictor {
    /// A predictor with as many counters and targets as the description says that has learnt nothing: every counter is
    /// 1, and there is no target. It takes all memory that the predictor takes; the one error is want of it.
    pub fn new(alloc: Global, desc: &Desc) -> Result<Predictor, NoMemory>
        ensures { IfOk result (λ p. p ≡ record {
          counters = replicate desc.now.predictor_counters 1;
          targets = replicate desc.now.predictor_btb None;
        }) }
    {
        let counters = vec![in alloc; COUNTER_START; desc.predictor_counters as usize]?;
        let targets = vec![in alloc; None; desc.predictor_btb as usize]?;
        Ok(Predictor { counters, targets })
    }

    /// There is a description that asks for as many counters and targets. It does nothing.
    #[inline(always)]
    pub fn described(&self)
        ensures { IsAsked (length self.now.counters) (length self.now.targets) }
    {
        // The look inside is for the proof: by it the type's invariant is at hand, and that has the clause.
        let _ = &self.targets;
    }

    /// Whether a branch whose counter stands at this place is predicted to be taken: exactly where the counter is 2 or
    /// 3. The branch's address and its history say which place that is.
    pub fn direction(&self, place: u32) -> bool
        requires { place < length self.now.counters }
        ensures { result ≡ is_taken self.now place }
    {
        self.counters[place as usize] >= TAKEN_FROM
    }

    /// The address to which a JALR at this address is predicted to go. None exactly where no target is stored for this
    /// very address.
    pub fn target(&self, pc: u32) -> Option<u32>
        ensures { result ≡ target_at self.now pc }
    {
        target_for(self.targets[index(pc, self.targets.len())], pc)
    }

    /// Learns how the branch went whose counter stands at this place: the counter goes one up where it was taken, to at
    /// most 3, else one down, to at least 0. No other counter changes, and no target. Answers the event that tells the
    /// counter's value.
    pub fn learn_branch(&mut self, place: u32, taken: bool) -> Event
        requires { place < length self.old.counters }
        ensures moved { self.new ≡ record self.old {
          counters = slice_set self.old.counters place (counter_after self.old place taken);
        } }
        ensures event { result ≡ event.Bp place (counter_after self.old place taken) }
    {
        let counter = moved(self.counters[place as usize], taken);
        self.counters[place as usize] = counter;
        Event::Bp(place, counter)
    }

    /// Learns where the JALR at this address went: address and target take its place. No other target changes, and no
    /// counter. Answers the event that tells the target.
    pub fn learn_target(&mut self, pc: u32, target: u32) -> Event
        ensures stored { self.new ≡ record self.old {
          targets = slice_set self.old.targets (target_place self.old pc)
              (Some (record { pc = pc; target = target }));
        } }
        ensures event { result ≡ event.Bt (target_place self.old pc) target }
    {
        let place = index(pc, self.targets.len());
        self.targets[place] = Some(Target { pc, target });
        Event::Bt(place as u32, target)
    }
}

// A counter after its branch went this way.
fn moved(counter: u8, taken: bool) -> u8
    ensures { result ≡ counter_after_branch taken counter }
{
    if !taken {
        return counter.saturating_sub(1);
    }
    if counter < COUNTER_MAX {
        counter + 1
    } else {
        COUNTER_MAX
    }
}

// A target, where it was stored for this address.
fn target_for(stored: Option<Target>, pc: u32) -> Option<u32>
    ensures { result ≡ target_if pc stored }
{
    match stored {
        Some(stored) if stored.pc == pc => Some(stored.target),
        _ => None,
    }
}
