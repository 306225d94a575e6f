//! One level of a cache: all its sets.
ghost use Rattle.std.specs.Prelude.{◌≡◌, ◌<◌, ◌≤◌, ◌==◌, not, true, [], ◌∷◌, replicate, slice_set, slice_index_or, IfOk, vec_len};
ghost use Rattle.std.specs.List.{filter, list_any};
ghost use Rattle.window_model.specs.Sets.{set_in, is_in, moved_up, with_front_line};
ghost use Rattle.cache_tags.specs.Sets.{set_at};

use crate::line_set::LineSet;
use rv_types::NoMemory;
use std::alloc::Global;
use std::marker::Model;

/// One level of a cache, seen as its sizes and, for each set, the first addresses of its lines, the most recently used
/// first.
#[derive(Drop)]
pub struct Level {
    sets: Vec<LineSet>,
    count: u32,
    ways: u32,
    bytes: u32,
}

impl Model for Level {
    ghost use Rattle.std.specs.Prelude.{◌≡◌, ◌<◌, ◌≤◌, vec_len};
    ghost use Rattle.cache_tags.specs.Sets.{Lines, lines_code};

    ghost Value = { Lines };

    ghost coded = { lines_code };

    ghost view = { λ l. record { count = l.count; ways = l.ways; bytes = l.bytes; sets = l.sets.items } };

    ghost invariant = { λ l. (vec_len l.sets ≡ l.count) × (0 < l.count) × (0 < l.bytes) × (0 < l.ways) × (l.ways ≤ 8) };
}

impl Level {
    /// A level without lines, of so many sets and ways and lines of so many bytes. It takes all memory that the level
    /// takes; the one error is want of it.
    pub fn new(alloc: Global, count: u32, ways: u32, bytes: u32) -> Result<Level, NoMemory>
        requires some_sets { 0 < count }
        requires some_ways { 0 < ways }
        requires few_ways { ways ≤ 8 }
        requires some_bytes { 0 < bytes }
        ensures { IfOk result (λ l. l
            ≡ record { count = count; ways = ways; bytes = bytes; sets = replicate count [] }) }
    {
        let sets = empty_sets(alloc, count)?;
        Ok(Level {
            sets,
            count,
            ways,
            bytes,
        })
    }

    /// Whether this line is there.
    pub fn holds(&self, line: u32) -> bool
        ensures here { result ≡ is_in self.now.sets (set_at self.now line) line }
    {
        self.sets[set_of(line, self.bytes, self.count)].holds(line)
    }

    /// Uses this line: where it is there, it moves to the front of its set; else nothing changes. Answers whether it is
    /// there.
    pub fn touch(&mut self, line: u32) -> bool
        ensures here { result ≡ is_in self.old.sets (set_at self.old line) line }
        ensures moved { self.new ≡ record self.old { sets = moved_up self.old.sets (set_at self.old line) line } }
    {
        let set = set_of(line, self.bytes, self.count);
        if self.sets[set].holds(line) {
            bring_forward(&mut self.sets, set, line);
            return true;
        }
        false
    }

    /// A line arrives: it goes to the front of its set, whose last line goes where there are more than the ways then.
    pub fn enter(&mut self, line: u32)
        ensures entered { self.new ≡ record self.old {
          sets = with_front_line self.old.ways self.old.sets (set_at self.old line) line;
        } }
    {
        let set = set_of(line, self.bytes, self.count);
        put_in_front(&mut self.sets, set, line, self.ways);
    }
}

// The set that a line of so many bytes belongs to, of so many sets.
fn set_of(line: u32, bytes: u32, count: u32) -> usize
    requires some_bytes { 0 < bytes }
    requires some_sets { 0 < count }
    ensures value { result ≡ set_in bytes count line }
    ensures inside { result < count }
{
    (line / bytes % count) as usize
}

// Moves a line that is there to the front of its set.
fn bring_forward(sets: &mut Vec<LineSet>, set: usize, line: u32)
    requires inside { set < vec_len sets.old }
    requires here { list_any (λ l. l == line) (slice_index_or sets.old.items set []) ≡ true }
    ensures { sets.new.items ≡ slice_set sets.old.items set
        (line ∷ filter (λ l. not (l == line)) (slice_index_or sets.old.items set [])) }
{
    sets[set].bring_forward(line);
}

// Puts a line at the front of its set.
fn put_in_front(sets: &mut Vec<LineSet>, set: usize, line: u32, ways: u32)
    requires inside { set < vec_len sets.old }
    requires some { 0 < ways }
    requires few { ways ≤ 8 }
    ensures { sets.new.items ≡ with_front_line ways sets.old.items set line }
{
    sets[set].enter(line, ways);
}

// A row of so many sets without lines.
#[tactic(auto, using(std::proofs::lemmas::List::replicate_more))]
fn empty_sets(alloc: Global, count: u32) -> Result<Vec<LineSet>, NoMemory>
    ensures { IfOk result (λ sets. sets.items ≡ replicate count []) }
{
    let mut sets = Vec::with_capacity(alloc, count as usize)?;
    for _ in 0..count {
        sets.push(LineSet::empty())?;
    }
    Ok(sets)
}
