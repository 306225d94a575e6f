//! The bits of dependence, one for all loads that share it.
ghost use Rattle.std.specs.Prelude.{◌≡◌, ◌<◌, false, length, replicate, IfOk};
ghost use Rattle.window_model.specs.Dependence.{bit_index, bit_set, waits_for_stores};
ghost use Rattle.window_model.specs.declared.Event.TheVariants as event;
ghost use Rattle.dep_pred.specs.Bits.{InEach, IsAsked, is_set, place, with_set};

use machine_desc::Desc;
use rv_types::NoMemory;
use std::alloc::Global;
use std::marker::Model;
use window_model::{Event, index};

/// The bits of dependence, seen as whether each is set. There are as many as some description asks for.
#[derive(Drop)]
pub struct DepPred {
    bits: Vec<bool>,
}

impl Model for DepPred {
    ghost use Rattle.std.specs.Prelude.{Bool, List, vec_len};
    ghost use Rattle.dep_pred.specs.Bits.{IsAsked};

    ghost Value = { List Bool };

    ghost view = { λ p. p.bits.items };

    ghost invariant = { λ p. IsAsked (vec_len p.bits) };
}

impl DepPred {
    /// The bits of a description, none of them set. It takes all memory that they take; the one error is want of it.
    pub fn new(alloc: Global, desc: &Desc) -> Result<DepPred, NoMemory>
        ensures { IfOk result (λ bits. bits ≡ replicate desc.now.predictor_depend false) }
    {
        let bits = vec![in alloc; false; desc.predictor_depend as usize]?;
        Ok(DepPred { bits })
    }

    /// Whether a load at this address waits for the addresses of all older stores: its bit is set. There is a bit or
    /// more.
    pub fn waits(&self, pc: u32) -> bool
        requires { 0 < length self.now }
        ensures bit { result ≡ is_set self.now pc }
        ensures described { IsAsked (length self.now) }
        ensures machine { InEach self.now (λ d. result ≡ waits_for_stores d self.now pc) }
    {
        self.bits[index(pc, self.bits.len())]
    }

    /// Learns that a load at this address passed a store wrongly: its bit is set, and no other changes. Answers the
    /// event that tells the bit's value. There is a bit or more.
    pub fn learn(&mut self, pc: u32) -> Event
        requires { 0 < length self.old }
        ensures bit { self.new ≡ with_set self.old pc }
        ensures event { result ≡ event.Dp (place self.old pc) 1 }
        ensures described { IsAsked (length self.old) }
        ensures machine { InEach self.old (λ d.
            (self.new ≡ bit_set d pc self.old) × (result ≡ event.Dp (bit_index d pc) 1)) }
    {
        let place = index(pc, self.bits.len());
        self.bits[place] = true;
        Event::Dp(place as u32, 1)
    }
}
