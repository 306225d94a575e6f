//! The writes as a list that is searched.
ghost use Rattle.std.specs.Prelude.{◌≡◌, ◌≤◌, ◌==◌, nat_lt, vec_len, vec_capacity};
ghost use Rattle.std.specs.List.{filter, list_any};
ghost use Rattle.rename_taint.specs.Writes.{before_serial, last_write};

use crate::{RenameTaint, Source, Write};
use machine_desc::Desc;
use rv_types::{NoMemory, Reg};
use std::alloc::Global;

/// The writes as a list. Each call searches it from the youngest on, or goes over all of it.
#[derive(Drop)]
pub struct ByScan {
    writes: Vec<Write>,
    room: u32,
    ghost fits: { vec_len writes ≤ room },
    ghost reserved: { room ≤ vec_capacity writes },
}

impl RenameTaint for ByScan {
    ghost writes = { λ s. s.writes.items };

    ghost room = { λ s. s.room };

    fn new(alloc: Global, desc: &Desc) -> Result<Self, NoMemory> {
        match Vec::with_capacity(alloc, desc.core_rob as usize) {
            Ok(writes) => Ok(ByScan {
                writes,
                room: desc.core_rob,
            }),
            Err(_) => Err(NoMemory),
        }
    }

    fn source(&self, register: Reg) -> Source {
        match find_last(&self.writes, register.number) {
            Some(write) => Source::Entry(write.serial),
            None => Source::Committed,
        }
    }

    fn root(&self, register: Reg) -> Option<u64> {
        match find_last(&self.writes, register.number) {
            Some(write) => write.root,
            None => None,
        }
    }

    fn write(&mut self, register: Reg, serial: u64, root: Option<u64>) {
        let write = Write {
            serial,
            register: register.number,
            root,
        };
        match self.writes.push(write) {
            Ok(()) => (),
            Err(_) => unreachable!(),
        }
    }

    fn retired(&mut self, serial: u64) {
        if is_held(&self.writes, serial) {
            keep_after(&mut self.writes, serial);
        }
    }

    fn cut_back(&mut self, first: u64) {
        keep_before(&mut self.writes, first);
    }
}

// The last write of a register.
fn find_last(writes: &[Write], register: u8) -> Option<Write>
    ensures { result ≡ last_write writes.now register }
{
    for i in (0..writes.len()).rev() {
        if writes[i].register == register {
            return Some(writes[i]);
        }
    }
    None
}

// Whether a write with this serial is held.
fn is_held(writes: &[Write], serial: u64) -> bool
    ensures { result ≡ list_any (λ w. w.serial == serial) writes.now }
{
    for write in writes {
        if write.serial == serial {
            return true;
        }
    }
    false
}

// Lets go of the writes up to a serial.
fn keep_after(writes: &mut Vec<Write>, serial: u64)
    ensures kept { writes.new.items ≡ filter (λ w. nat_lt serial w.serial) writes.old.items }
    ensures shorter { vec_len writes.new ≤ vec_len writes.old }
    ensures capacity { vec_capacity writes.new ≡ vec_capacity writes.old }
{
    writes.retain(|write| serial < write.serial);
}

// Lets go of the writes from a serial on.
fn keep_before(writes: &mut Vec<Write>, first: u64)
    ensures kept { writes.new.items ≡ before_serial first writes.old.items }
    ensures shorter { vec_len writes.new ≤ vec_len writes.old }
    ensures capacity { vec_capacity writes.new ≡ vec_capacity writes.old }
{
    writes.retain(|write| write.serial < first);
}
