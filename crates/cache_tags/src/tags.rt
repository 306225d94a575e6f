//! The cache of a described machine.
ghost use Rattle.std.specs.Prelude.{◌≡◌, [], replicate, IfOk};
ghost use Rattle.window_model.specs.Fill.{with_line};
ghost use Rattle.window_model.specs.Retire.{has_line, with_line_touched};

use crate::level::Level;
use machine_desc::Desc;
use rv_types::NoMemory;
use std::alloc::Global;
use std::marker::Model;

/// The cache's tags, seen as the description that they are made for and, for each set, the first addresses of its
/// lines, the most recently used first.
#[derive(Drop)]
pub struct Tags {
    desc: Desc,
    level: Level,
}

impl Model for Tags {
    ghost use Rattle.std.specs.Prelude.{◌≡◌};
    ghost use Rattle.cache_tags.specs.Sets.{Cache, cache_code};

    ghost Value = { Cache };

    ghost coded = { cache_code };

    ghost view = { λ t. record { desc = t.desc; sets = t.level.sets } };

    ghost invariant = { λ t. (t.level.count ≡ t.desc.cache_sets) × (t.level.ways ≡ t.desc.cache_ways)
        × (t.level.bytes ≡ t.desc.cache_line) };
}

impl Tags {
    /// A cache of this description without lines. It takes all memory that the cache takes; the one error is want of
    /// it.
    pub fn new(alloc: Global, desc: &Desc) -> Result<Tags, NoMemory>
        ensures { IfOk result (λ t. t ≡ record { desc = desc.now; sets = replicate desc.now.cache_sets [] }) }
    {
        let level = Level::new(alloc, desc.cache_sets, desc.cache_ways, desc.cache_line)?;
        Ok(Tags { desc: *desc, level })
    }

    /// Whether the cache has this line.
    pub fn holds(&self, line: u32) -> bool
        ensures here { result ≡ has_line self.now.desc self.now.sets line }
    {
        self.level.holds(line)
    }

    /// Uses this line: where the cache has it, it moves to the front of its set; else nothing changes. Answers whether
    /// the cache has it.
    pub fn touch(&mut self, line: u32) -> bool
        ensures here { result ≡ has_line self.old.desc self.old.sets line }
        ensures moved { self.new ≡ record self.old { sets = with_line_touched self.old.desc self.old.sets line } }
    {
        self.level.touch(line)
    }

    /// A line arrives: it goes to the front of its set, whose last line goes where there are more than the ways then.
    pub fn fill(&mut self, line: u32)
        ensures entered { self.new ≡ record self.old { sets = with_line self.old.desc self.old.sets line } }
    {
        self.level.enter(line);
    }
}
