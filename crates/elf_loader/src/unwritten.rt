//! The places of a row that are still left, found from any place on in a few steps.
//!
//! Each place holds how far to jump: 0 where it is left, else at most to the next left place. A walk from a place on
//! sets the jumps that it took to where it ended, so later walks are short: n walks and takes over a row of m places
//! make at most about (n + m) log m jumps in all (path compression).
ghost use Rattle.std.specs.Prelude.{◌≡◌, ◌<◌, ◌≤◌, ◌+◌, ◌^◌, ℕ, true, false, length, replicate, slice_index, slice_index_or, slice_set, IfOk};
ghost use Rattle.elf_loader.specs.inner.Jumps.{left_by, HasJumps};

use rv_types::NoMemory;
use std::alloc::Global;
use std::marker::Model;

/// The places that are left, seen as a list of Bools.
#[derive(Drop)]
pub(crate) struct Unwritten {
    jumps: Vec<u32>,
}

impl Model for Unwritten {
    ghost use Rattle.std.specs.Prelude.{List, Bool, ◌<◌, ◌^◌};

    ghost Value = { List Bool };

    ghost use Rattle.elf_loader.specs.inner.Jumps.{left_by, HasJumps};

    ghost view = { λ u. left_by u.jumps.items };

    ghost invariant = { λ u. HasJumps u.jumps.items };
}

/// Sets the jumps from a place on, as far as a walk took them, to the walk's end.
fn compress(jumps: &mut Vec<u32>, from: usize, end: usize)
    requires jumps { HasJumps jumps.old.items }
    requires end { end ≤ length jumps.old.items }
    requires none { (k : ℕ) → from ≤ k → k < end → 0 < slice_index jumps.old.items k }
    ensures jumps { HasJumps jumps.new.items }
    ensures same { left_by jumps.new.items ≡ left_by jumps.old.items }
{
    let mut place = from;
    while place < end {
        let next = place + jumps[place] as usize;
        jumps[place] = (end - place) as u32;
        place = next;
    }
}

/// The first place from one on that has no jump, else the number of places.
fn walk(jumps: &[u32], from: usize) -> usize
    requires jumps { HasJumps jumps.now }
    requires from { from ≤ length jumps.now }
    ensures from { from ≤ result }
    ensures within { result ≤ length jumps.now }
    ensures none { (k : ℕ) → from ≤ k → k < result → 0 < slice_index jumps.now k }
    ensures here { result < length jumps.now → slice_index jumps.now result ≡ 0 }
{
    let mut place = from;
    while place < jumps.len() && jumps[place] != 0 {
        place += jumps[place] as usize;
    }
    place
}

impl Unwritten {
    /// A row of so many places, every one of them left. The one error is want of memory.
    pub fn new(alloc: Global, size: usize) -> Result<Unwritten, NoMemory>
        requires { size < 2 ^ 32 }
        ensures { IfOk result (λ u. u ≡ replicate size true) }
    {
        let jumps = vec![in alloc; 0u32; size]?;
        Ok(Unwritten { jumps })
    }

    /// The first place from one on that is left, else the number of places.
    pub fn next(&mut self, from: usize) -> usize
        requires { from ≤ length self.old }
        ensures from { from ≤ result }
        ensures within { result ≤ length self.old }
        ensures taken { (k : ℕ) → from ≤ k → k < result → slice_index_or self.old k false ≡ false }
        ensures left { result < length self.old → slice_index_or self.old result false ≡ true }
        ensures same { self.new ≡ self.old }
    {
        let end = walk(self.jumps.as_slice(), from);
        compress(&mut self.jumps, from, end);
        end
    }

    /// Takes a place: it is left no more.
    pub fn take(&mut self, place: usize)
        requires { place < length self.old }
        ensures { self.new ≡ slice_set self.old place false }
    {
        if self.jumps[place] == 0 {
            self.jumps[place] = 1;
        }
    }
}
