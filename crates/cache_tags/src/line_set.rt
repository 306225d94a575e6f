//! The lines of one set.
ghost use Rattle.std.specs.Prelude.{◌≡◌, ◌<◌, ◌≤◌, ◌==◌, not, true, [], ◌∷◌, take, length};
ghost use Rattle.std.specs.List.{filter, list_any};

use arrayvec::ArrayVec;
use std::marker::Model;

/// The most lines of a set.
pub(crate) const WAYS_MAX: usize = 8;

/// The lines of a set by their first addresses, the most recently used first.
#[derive(Drop)]
pub(crate) struct LineSet {
    lines: ArrayVec<u32, WAYS_MAX>,
}

impl Model for LineSet {
    ghost use Rattle.std.specs.Prelude.{ℕ, List, length, ◌≤◌};

    ghost Value = { List ℕ };

    ghost view = { λ s. s.lines.items };

    ghost invariant = { λ s. length s.lines.items ≤ 8 };
}

impl LineSet {
    /// A set that holds no line.
    pub(crate) fn empty() -> LineSet
        ensures { result ≡ [] }
    {
        LineSet {
            lines: ArrayVec::new(),
        }
    }

    /// Whether the line is there.
    pub(crate) fn holds(&self, line: u32) -> bool
        ensures { result ≡ list_any (λ l. l == line) self.now }
    {
        is_among(self.lines.as_slice(), line)
    }

    /// Moves a line that is there to the front.
    pub(crate) fn bring_forward(&mut self, line: u32)
        requires here { list_any (λ l. l == line) self.old ≡ true }
        ensures moved { self.new ≡ line ∷ filter (λ l. not (l == line)) self.old }
    {
        to_front(&mut self.lines, line);
    }

    /// Puts a line at the front, and lets go of the last where there are more than `ways` then.
    pub(crate) fn enter(&mut self, line: u32, ways: u32)
        requires some { 0 < ways }
        requires few { ways ≤ 8 }
        ensures entered { self.new ≡ take ways (line ∷ self.old) }
    {
        self.lines.truncate(ways as usize - 1);
        self.lines.insert(0, line);
    }
}

// Takes a line out, where it is there.
fn take_out(lines: &mut ArrayVec<u32, WAYS_MAX>, line: u32)
    ensures { lines.new.items ≡ filter (λ l. not (l == line)) lines.old.items }
{
    lines.retain(|other| *other != line);
}

// Moves a line that is there to the front.
fn to_front(lines: &mut ArrayVec<u32, WAYS_MAX>, line: u32)
    requires here { list_any (λ l. l == line) lines.old.items ≡ true }
    requires few { length lines.old.items ≤ 8 }
    ensures few { length lines.new.items ≤ 8 }
    ensures moved { lines.new.items ≡ line ∷ filter (λ l. not (l == line)) lines.old.items }
{
    take_out(lines, line);
    lines.insert(0, line);
}

// Whether the line is one of these.
fn is_among(lines: &[u32], line: u32) -> bool
    ensures { result ≡ list_any (λ l. l == line) lines.now }
{
    for other in lines {
        if *other == line {
            return true;
        }
    }
    false
}
