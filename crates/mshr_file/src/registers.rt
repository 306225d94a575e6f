//! The miss registers, as a list of those taken.
ghost use Rattle.std.specs.Prelude.{◌≡◌, ◌<◌, ◌≤◌, ◌-◌, ◌==◌, not, nat_lt, [], ◌∷◌, ◌++◌, length, IfOk, vec_len, vec_capacity};
ghost use Rattle.std.specs.List.{find, position};
ghost use Rattle.std.specs.Option.{option_map};
ghost use Rattle.window_model.specs.Fill.{is_due};
ghost use Rattle.mshr_file.specs.Registers.{without_first};

use machine_desc::Desc;
use rv_types::NoMemory;
use std::alloc::Global;
use std::marker::Model;
use window_model::Miss;

/// The miss registers of a core.
#[derive(Drop)]
pub struct Mshrs {
    /// The registers that are taken, in the order of taking.
    misses: Vec<Miss>,
    /// How many registers there are in all.
    room: u32,
}

impl Model for Mshrs {
    ghost use Rattle.std.specs.Prelude.{◌≤◌, vec_capacity, vec_len};
    ghost use Rattle.mshr_file.specs.Registers.{Registers};

    ghost Value = { Registers };

    ghost view = { λ m. record { misses = m.misses.items; room = m.room } };

    ghost invariant = { λ m. (vec_len m.misses ≤ m.room) × (m.room ≤ vec_capacity m.misses) };
}

impl Mshrs {
    /// The registers of a description, every one free. No later call takes memory. The one error is want of memory.
    pub fn new(alloc: Global, desc: &Desc) -> Result<Mshrs, NoMemory>
        ensures { IfOk result (λ m. m ≡ record { misses = []; room = desc.now.cache_mshrs }) }
    {
        let misses = Vec::with_capacity(alloc, desc.cache_mshrs as usize)?;
        Ok(Mshrs {
            misses,
            room: desc.cache_mshrs,
        })
    }

    /// The cycle in which the line comes, None exactly where no register waits for it.
    pub fn find(&self, line: u32) -> Option<u64>
        ensures { result ≡ option_map (λ m. m.due) (find (λ m. m.line == line) self.now.misses) }
    {
        self.misses
            .iter()
            .find(|miss| miss.line == line)
            .map(|miss| miss.due)
    }

    /// The registers that are taken, in the order of taking.
    pub fn misses(&self) -> &[Miss]
        ensures { result.now ≡ self.now.misses }
    {
        self.misses.as_slice()
    }

    /// How many registers are taken.
    pub fn len(&self) -> usize
        ensures value { result ≡ length self.now.misses }
        ensures few { result ≤ self.now.room }
    {
        self.misses.len()
    }

    /// How many registers are free.
    pub fn free(&self) -> u32
        ensures { result ≡ self.now.room - length self.now.misses }
    {
        self.room - self.len() as u32
    }

    /// Whether no register is free. Kept for who looks at a core from outside.
    pub fn full(&self) -> bool
        ensures { result ≡ not (nat_lt (length self.now.misses) self.now.room) }
    {
        self.len() >= self.room as usize
    }

    /// Takes a register for a line that comes in a cycle, from memory or from the second level.
    pub fn take(&mut self, line: u32, due: u64, from_memory: bool)
        requires room { length self.old.misses < self.old.room }
        ensures { self.new ≡ record self.old {
          misses = self.old.misses ++ record { line = line; due = due; from_memory = from_memory } ∷ [];
        } }
    {
        let miss = Miss {
            line,
            due,
            from_memory,
        };
        push_within(&mut self.misses, miss);
    }

    /// Frees the register that was taken first of those due in this cycle, and tells its line and whether that comes
    /// from memory. None exactly where none is due, and nothing changes then.
    pub fn due(&mut self, cycle: u64) -> Option<(u32, bool)>
        ensures line { result ≡ option_map (λ m. (m.line, m.from_memory)) (find (is_due cycle) self.old.misses) }
        ensures freed { self.new ≡ record self.old { misses = without_first (is_due cycle) self.old.misses } }
    {
        free_due(&mut self.misses, cycle).map(|miss| (miss.line, miss.from_memory))
    }
}

// Appends where there is room.
fn push_within(misses: &mut Vec<Miss>, miss: Miss)
    requires { vec_len misses.old < vec_capacity misses.old }
    ensures items { misses.new.items ≡ misses.old.items ++ miss ∷ [] }
    ensures capacity { vec_capacity misses.old ≤ vec_capacity misses.new }
{
    match misses.push(miss) {
        Ok(()) => (),
        Err(_) => unreachable!(),
    }
}

// Where the first of those due in a cycle stands.
fn first_due(misses: &[Miss], cycle: u64) -> Option<usize>
    ensures { result ≡ position (is_due cycle) misses.now }
{
    misses.iter().position(|miss| miss.due == cycle)
}

// Takes out the first of those due in a cycle.
fn free_due(misses: &mut Vec<Miss>, cycle: u64) -> Option<Miss>
    ensures found { result ≡ find (is_due cycle) misses.old.items }
    ensures freed { misses.new.items ≡ without_first (is_due cycle) misses.old.items }
    ensures fewer { vec_len misses.new ≤ vec_len misses.old }
    ensures capacity { vec_capacity misses.new ≡ vec_capacity misses.old }
{
    match first_due(misses.as_slice(), cycle) {
        Some(place) => Some(misses.remove(place)),
        None => None,
    }
}
