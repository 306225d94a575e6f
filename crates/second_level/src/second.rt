//! The second level of a described machine.
ghost use Rattle.std.specs.Prelude.{◌≡◌, [], replicate, IfOk, IfSome};
ghost use Rattle.window_model.specs.SecondLevel.{second_has, second_touched, second_with_line};
ghost use Rattle.second_level.specs.Second.{IsLevel};

use cache_tags::Level;
use machine_desc::Desc;
use rv_types::NoMemory;
use std::alloc::Global;
use std::marker::Model;

/// The second level's tags, seen as the description that they are made for and, for each set, the first addresses of
/// its lines, the most recently used first.
#[derive(Drop)]
pub struct Second {
    desc: Desc,
    /// The sets of the level, None exactly where the description gives it none.
    level: Option<Level>,
}

impl Model for Second {
    ghost use Rattle.cache_tags.specs.Sets.{Cache, cache_code};
    ghost use Rattle.second_level.specs.Second.{IsLevel, sets_of};

    ghost Value = { Cache };

    ghost coded = { cache_code };

    ghost view = { λ s. record { desc = s.desc; sets = sets_of s.level } };

    ghost invariant = { λ s. IsLevel s.desc s.level };
}

impl Second {
    /// A second level of this description without lines. It takes all memory that the level takes; the one error is
    /// want of it.
    pub fn new(alloc: Global, desc: &Desc) -> Result<Second, NoMemory>
        ensures { IfOk result (λ s. s ≡ record { desc = desc.now; sets = replicate desc.now.cache_second_sets [] }) }
    {
        let level = level_of(alloc, desc)?;
        Ok(Second { desc: *desc, level })
    }

    /// Whether the level has this line: never where the description gives it no sets.
    pub fn holds(&self, line: u32) -> bool
        ensures here { result ≡ second_has self.now.desc self.now.sets line }
    {
        match &self.level {
            Some(level) => level.holds(line),
            None => false,
        }
    }

    /// Looks this line up: where the level has it, it moves to the front of its set; else nothing changes. Answers
    /// whether the level has it.
    pub fn look(&mut self, line: u32) -> bool
        ensures here { result ≡ second_has self.old.desc self.old.sets line }
        ensures moved { self.new ≡ record self.old { sets = second_touched self.old.desc self.old.sets line } }
    {
        match &mut self.level {
            Some(level) => level.touch(line),
            None => false,
        }
    }

    /// A line arrives from memory: it goes to the front of its set, whose last line goes where there are more than the
    /// ways then. Nothing changes where the description gives the level no sets.
    pub fn fill(&mut self, line: u32)
        ensures entered { self.new ≡ record self.old { sets = second_with_line self.old.desc self.old.sets line } }
    {
        if let Some(level) = &mut self.level {
            level.enter(line);
        }
    }
}

// The level without lines that the description asks for, if it gives it sets.
fn level_of(alloc: Global, desc: &Desc) -> Result<Option<Level>, NoMemory>
    ensures sizes { IfOk result (IsLevel desc.now) }
    ensures empty { IfOk result (λ o. IfSome o (λ l. l.sets ≡ replicate desc.now.cache_second_sets [])) }
{
    if desc.cache_second_sets == 0 {
        return Ok(None);
    }
    let sets = desc.cache_second_sets;
    let level = Level::new(alloc, sets, desc.cache_second_ways, desc.cache_line)?;
    Ok(Some(level))
}
