//! Which entry is resolved in a cycle (`docs/machine.md`, "Resolve").
ghost use Rattle.std.specs.Prelude.{◌≡◌, ◌<◌, length, slice_get, Some};
ghost use Rattle.rob_ring.specs.Beside.{each_roots};
ghost use Rattle.rob_ring.specs.declared.beside.Sources.{Sources};
ghost use Rattle.visibility.specs.Pick.{can_resolve, pick_from};

use circular_buffer::HeapCircularBuffer;
use machine_desc::Desc;
use rob_ring::{RobRing, Sources, sources_at};
use visibility::VisPoint;
use window_model::Entry;

/// The position of the oldest entry that may be resolved, counted from the oldest in the window. None exactly where
/// there is no such entry. What is kept of each entry's sources stands at the entry's position.
///
/// Under the defence `delay` it is one that is visible, too: the point and the defence are of the description.
///
/// The reorder buffer knows its branches and JALRs that aren't resolved, among the entries that aren't settled, so only
/// those are looked at.
pub fn pick(
    rob: &RobRing,
    point: &VisPoint,
    sources: &HeapCircularBuffer<Sources>,
    desc: &Desc,
) -> Option<u32>
    requires each_has_sources { length sources.now.items ≡ length rob.now.entries }
    ensures { result ≡ pick_from desc.now point.now.serial 0 rob.now.entries (each_roots sources.now.items) }
{
    let mut from = 0;
    while let Some(i) = rob.next_open(from) {
        if may_resolve_at(rob.lend(i), i, point, sources, desc) {
            return Some(i);
        }
        from = i + 1;
    }
    None
}

// Whether the entry at a position may be resolved, by what is kept there of its sources. Of one that isn't Done no more
// is looked at.
fn may_resolve_at(
    entry: &Entry,
    i: u32,
    point: &VisPoint,
    sources: &HeapCircularBuffer<Sources>,
    desc: &Desc,
) -> bool
    requires within { i < length sources.now.items }
    ensures { (s : Sources) → slice_get sources.now.items i ≡ Some s
        → result ≡ can_resolve desc.now point.now.serial entry.now s.roots }
{
    if !entry.is_done() {
        return false;
    }
    may_resolve(entry, point, sources_at(sources, i).roots, desc)
}

// Whether an entry whose sources have these youngest roots may be resolved.
fn may_resolve(entry: &Entry, point: &VisPoint, roots: [Option<u64>; 2], desc: &Desc) -> bool
    ensures { result ≡ can_resolve desc.now point.now.serial entry.now roots }
{
    let [first, second] = roots;
    entry.is_control()
        && entry.is_done()
        && !entry.resolved
        && !point.tainted(first)
        && !point.tainted(second)
        && point.may_show(desc, entry.serial)
}
