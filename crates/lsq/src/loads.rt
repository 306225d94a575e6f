//! What is noted in the queue of loads.
ghost use Rattle.std.specs.Prelude.{◌≡◌, map, vec_capacity};
ghost use Rattle.lsq.specs.Queues.{issued_at};

use crate::load::{IssuedLoad, Load};

// Notes what the load reads, where it has this serial.
fn issue_one(load: &mut Load, serial: u64, access: IssuedLoad)
    ensures { load.new ≡ issued_at serial access load.old }
{
    if load.serial == serial {
        load.access = Some(access);
    }
}

// Notes in a list of loads what one reads.
fn issue_in(loads: &mut [Load], serial: u64, access: IssuedLoad)
    ensures { loads.new ≡ map (issued_at serial access) loads.old }
{
    for load in loads.iter_mut() {
        issue_one(load, serial, access);
    }
}

// Notes what the load with this serial reads.
pub(crate) fn issue_load(loads: &mut Vec<Load>, serial: u64, access: IssuedLoad)
    ensures items { loads.new.items ≡ map (issued_at serial access) loads.old.items }
    ensures capacity { vec_capacity loads.new ≡ vec_capacity loads.old }
{
    issue_in(loads.as_mut_slice(), serial, access);
}
