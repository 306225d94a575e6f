//! The visibility point, and how it moves.
ghost use Rattle.std.specs.Prelude.{◌≡◌, ◌+◌, ◌-◌, ◌<◌, ◌≤◌, ◌^◌, IsTrue, false, if◌then◌else◌, min, not, nat_le};
ghost use Rattle.std.specs.List.{find, All};
ghost use Rattle.std.specs.Option.{option_map};
ghost use Rattle.window_model.specs.Serials.{Rise};
ghost use Rattle.rob_ring.specs.Ring.{Next};
ghost use Rattle.window_model.specs.Taint.{protects};
ghost use Rattle.visibility.specs.Gate.{may_show_by};
ghost use Rattle.visibility.specs.Point.{
  permits,
  is_hidden,
  next_after,
  first_point,
  moved_over,
  CanAdvance,
  HasAdvanced,
};

use machine_desc::{Defence, Desc, SttModel};
use rob_ring::RobRing;
use std::marker::Model;

/// The visibility point of a model: entries up to its serial are visible, and younger ones are not. Under a model that
/// doesn't protect it stands at the last serial from the start on, so that every entry is visible.
#[derive(Drop)]
pub struct VisPoint {
    serial: u64,
    model: SttModel,
}

impl Model for VisPoint {
    ghost use Rattle.visibility.specs.Point.{Point, ShowsAll};

    ghost Value = { Point };

    ghost view = { λ p. record { serial = p.serial; model = p.model } };

    ghost invariant = { λ p. ShowsAll (record { serial = p.serial; model = p.model }) };
}

impl VisPoint {
    /// The point before anything is in flight: serial 0 alone is visible, or every serial where the model doesn't
    /// protect.
    pub fn new(desc: &Desc) -> VisPoint
        ensures { result ≡ first_point desc.now.stt_model }
    {
        VisPoint {
            serial: first_serial(desc.stt_model),
            model: desc.stt_model,
        }
    }

    /// Whether the entry with this serial is visible: each is where the model doesn't protect.
    pub fn visible(&self, serial: u64) -> bool
        ensures tells { result ≡ nat_le serial self.now.serial }
        ensures every { protects self.now.model ≡ false → IsTrue result }
    {
        serial <= self.serial
    }

    /// The least serial that isn't visible: the one after the point's, or the last serial, 2^64 - 1, where the point
    /// stands there, as it does where the model doesn't protect. No entry has the last serial, so each entry that isn't
    /// visible has this one or a later one, and no other has.
    pub fn hidden_from(&self) -> u64
        ensures { result ≡ min (self.now.serial + 1) (2 ^ 64 - 1) }
    {
        self.serial.saturating_add(1)
    }

    /// Whether the entry with this serial may show its operands in the machine of a description: under the defence
    /// `delay` once it is visible, whatever its operands are, and under any other defence at once (`docs/machine.md`,
    /// "Safe and visible"). The point is of the description's model.
    #[inline(always)]
    pub fn may_show(&self, desc: &Desc, serial: u64) -> bool
        ensures { result ≡ may_show_by desc.now self.now.serial serial }
    {
        match desc.stt_defence {
            Defence::Delay => self.visible(serial),
            _ => true,
        }
    }

    /// Whether a value with this youngest root is tainted: the root is a load that isn't visible. A value without roots
    /// is not.
    pub fn tainted(&self, root: Option<u64>) -> bool
        ensures { result ≡ is_hidden self.now.serial root }
    {
        match root {
            Some(serial) => !self.visible(serial),
            None => false,
        }
    }

    /// Moves the point on: to the oldest entry that keeps younger ones from being visible, or to the serial after the
    /// youngest where none does. The reorder buffer tells that entry, so no walk over the entries is needed. Where the
    /// model doesn't protect the point stays where it shows all.
    #[inline(always)]
    pub fn advance(&mut self, rob: &RobRing)
        requires rise { Rise rob.now.entries }
        requires few { All (λ e. e.serial < 2 ^ 64 - 1) rob.now.entries }
        requires can { CanAdvance self.old rob.now.entries }
        ensures moved { self.new ≡ moved_over rob.now.entries self.old }
        ensures advanced { HasAdvanced self.new rob.now.entries }
        ensures on { self.old.serial ≤ self.new.serial }
    {
        if self.model == SttModel::Off {
            return;
        }
        let stop = find_stop(self.model, rob);
        self.serial = stop.unwrap_or(after_youngest(self.serial, rob));
    }
}

// The serial up to which entries are visible before anything is in flight.
fn first_serial(model: SttModel) -> u64
    ensures { result ≡ (if protects model then 0 else 2 ^ 64 - 1) }
{
    match model {
        SttModel::Off => u64::MAX,
        _ => 0,
    }
}

// The serial of the oldest entry that keeps younger ones from being visible.
fn find_stop(model: SttModel, rob: &RobRing) -> Option<u64>
    ensures { result ≡ option_map (λ e. e.serial) (find (λ e. not (permits model e)) rob.now.entries) }
{
    match next_stop(model, rob) {
        Some(i) => Some(rob.lend(i).serial),
        None => None,
    }
}

// The position at which the point stops: the first entry that isn't settled, or the first that may yet squash what
// comes after it.
fn next_stop(model: SttModel, rob: &RobRing) -> Option<u32>
    ensures { Next (λ e. not (permits model e)) rob.now.entries 0 result }
{
    match model {
        SttModel::Spectre => rob.next_open(0),
        SttModel::Futuristic => rob.next_unsafe(0),
        SttModel::Off => None,
    }
}

// The serial after the youngest entry's, this one where there is none.
#[tactic(auto, using(crate::proofs::Moving::next_is))]
fn after_youngest(serial: u64, rob: &RobRing) -> u64
    requires { All (λ e. e.serial < 2 ^ 64 - 1) rob.now.entries }
    ensures { result ≡ next_after serial rob.now.entries }
{
    let len = rob.len();
    if len == 0 {
        return serial;
    }
    rob.lend(len - 1).serial + 1
}
