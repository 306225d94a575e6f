//! Which store is cleared: the queues and the visibility point tell it, so the window isn't searched.
ghost use Rattle.std.specs.Prelude.{◌≡◌, ◌<◌, ◌^◌, length};
ghost use Rattle.std.specs.List.{find};
ghost use Rattle.std.specs.Option.{option_map};
ghost use Rattle.clear.specs.Clearable.{can_clear, may_clear_by};

use lsq::{Lsq, StoreInfo};
use visibility::VisPoint;

/// The serial of the oldest store in the queue that may be cleared, once the visibility point has moved over the
/// window. None where none may.
pub(crate) fn clearable(queues: &Lsq, point: &VisPoint) -> Option<u64>
    requires few { length queues.now.stores < 2 ^ 32 }
    ensures { result ≡ option_map (λ s. s.serial) (find (can_clear point.now.serial) queues.now.stores) }
{
    let mut place = 0;
    while let Some(store) = queues.store_at(place) {
        if may_clear(&store, point) {
            return Some(store.serial);
        }
        place += 1;
    }
    None
}

// Whether a store may be: it is known where it writes, it isn't cleared, and its address isn't tainted.
fn may_clear(store: &StoreInfo, point: &VisPoint) -> bool
    ensures { result ≡ may_clear_by point.now.serial store.now }
{
    store.known && !store.cleared && !point.tainted(store.root)
}
