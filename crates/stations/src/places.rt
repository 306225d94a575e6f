//! The places, and lists of their numbers.
ghost use Rattle.std.specs.Prelude.{◌≡◌, ◌+◌, ◌<◌, ◌≤◌, [], ◌∷◌, ◌++◌, replicate, IfOk, vec_len, vec_capacity};
ghost use Rattle.std.specs.List.{range_with_len};
ghost use Rattle.stations.specs.Places.{nobody};

use crate::occupant::Occupant;
use rv_types::NoMemory;
use std::alloc::Global;

/// A row of so many places, which no entry has had. The one error is want of memory.
pub(crate) fn empty_places(alloc: Global, room: u32) -> Result<Vec<Occupant>, NoMemory>
    ensures items { IfOk result (λ v. v.items ≡ replicate room nobody) }
    ensures len { IfOk result (λ v. vec_len v ≡ room) }
{
    let mut places = Vec::with_capacity(alloc, room as usize)?;
    for turn in 0..room {
        places.push(Occupant::nobody())?;
    }
    Ok(places)
}

/// The numbers of so many places, which are all free. The one error is want of memory.
pub(crate) fn all_places(alloc: Global, room: u32) -> Result<Vec<u32>, NoMemory>
    ensures items { IfOk result (λ v. v.items ≡ range_with_len 0 room) }
    ensures len { IfOk result (λ v. vec_len v ≡ room) }
    ensures capacity { IfOk result (λ v. room ≤ vec_capacity v) }
{
    let mut free = Vec::with_capacity(alloc, room as usize)?;
    for place in 0..room {
        free.push(place)?;
    }
    Ok(free)
}

/// Takes the free place that is on top.
pub(crate) fn take_free(free: &mut Vec<u32>) -> u32
    requires { 0 < vec_len free.old }
    ensures items { free.old.items ≡ free.new.items ++ result ∷ [] }
    ensures len { vec_len free.new + 1 ≡ vec_len free.old }
    ensures capacity { vec_capacity free.new ≡ vec_capacity free.old }
{
    match free.pop() {
        Some(place) => place,
        None => unreachable!(),
    }
}

/// Appends where there is room.
pub(crate) fn push_within<T: Drop>(items: &mut Vec<T>, item: T)
    requires { vec_len items.old < vec_capacity items.old }
    ensures items { items.new.items ≡ items.old.items ++ item ∷ [] }
    ensures len { vec_len items.new ≡ vec_len items.old + 1 }
    ensures capacity { vec_capacity items.old ≤ vec_capacity items.new }
{
    match items.push(item) {
        Ok(()) => (),
        Err(_) => unreachable!(),
    }
}
