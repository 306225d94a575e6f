//! What the next turn of retiring finds at the head of the reorder buffer (`docs/machine.md`, "Retire").
ghost use Rattle.std.specs.Prelude.{◌≡◌, ◌<◌, ◌||◌, length};
ghost use Rattle.window_model.specs.Order.{is_store};
ghost use Rattle.window_model.specs.Retire.{store_waits};
ghost use Rattle.retire.specs.Turn.{turn_at, turn_of};
ghost use Rattle.retire.specs.declared.turn.Turn.TheVariants.{Leaves};

use rob_ring::RobRing;
use rv_types::Cause;
use window_model::Entry;

/// What a turn does with the head, the oldest entry.
#[derive(Clone, Copy)]
pub(crate) enum Turn {
    /// There is no head, or it may not leave yet, or it is a store that waits: no further turn follows.
    Waits,
    /// The head ends the run as a trap, with this cause and at this address, and doesn't retire.
    Traps(Cause, u32),
    /// The head retires, and leaves the buffer.
    Leaves,
}

/// The next turn, where a store has retired in this cycle or not. The head is only looked at where it stands.
pub(crate) fn turn_at(rob: &RobRing, stored: bool) -> Turn
    ensures turn { result ≡ turn_at stored rob.now.entries }
    ensures head { result ≡ Leaves → 0 < length rob.now.entries }
{
    if rob.len() == 0 {
        return Turn::Waits;
    }
    turn_of(rob.lend(0), stored)
}

// The turn of this head.
fn turn_of(head: &Entry, stored: bool) -> Turn
    ensures { result ≡ turn_of stored head.now }
{
    if !head.may_leave() {
        return Turn::Waits;
    }
    if let Some(cause) = head.trap() {
        return Turn::Traps(cause, head.item.pc);
    }
    if store_waits(head, stored) {
        return Turn::Waits;
    }
    Turn::Leaves
}

// Whether the head is a store that waits: behind another one of the cycle, or because it isn't cleared.
fn store_waits(head: &Entry, stored: bool) -> bool
    ensures { result ≡ store_waits stored head.now }
{
    head.is_store() && (stored || !head.cleared)
}

/// Whether a store has retired in this cycle, once this entry has.
pub(crate) fn has_stored(stored: bool, head: &Entry) -> bool
    ensures { result ≡ (stored || is_store head.now.item.kind) }
{
    stored || head.is_store()
}
