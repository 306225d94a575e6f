//! The phase: line by line.
ghost use Rattle.std.specs.Prelude.{◌≡◌, map};
ghost use Rattle.window_model.specs.declared.Event.TheVariants as event;
ghost use Rattle.window_model.specs.Fill.{arriving, fill, from_memory, lines, staying};
ghost use Rattle.window_model.specs.inner.Row.{HasRoom, IsLonger, most_filled, with_events};
ghost use Rattle.fill.specs.Lines.{with_lines, with_second_line, with_second_lines};

use cache_tags::Tags;
use core_parts::Parts;
use mshr_file::Mshrs;
use rename_taint::RenameTaint;
use second_level::Second;
use window_model::{Event, Row};

/// Phase Fill: the miss registers that are due are freed, in the order of taking, and the line of each enters the
/// cache, with its event. A line that comes from memory enters the second level too.
pub fn fill<R: RenameTaint>(parts: &mut Parts<R>, row: &mut Row)
    requires room { HasRoom most_filled row.old }
    ensures machine { parts.new ≡ record parts.old { machine = (fill parts.old.desc parts.old.machine).machine } }
    ensures row { row.new ≡ with_events row.old (fill parts.old.desc parts.old.machine).events }
    ensures few { IsLonger most_filled row.old row.new }
{
    let cycle = parts.cycle as u64;
    fill_lines(
        &mut parts.mshrs,
        &mut parts.tags,
        &mut parts.second,
        cycle,
        row,
    );
}

// The lines that are due in this cycle enter.
pub(crate) fn fill_lines(
    mshrs: &mut Mshrs,
    tags: &mut Tags,
    second: &mut Second,
    cycle: u64,
    row: &mut Row,
)
    requires room { HasRoom mshrs.old.room row.old }
    ensures freed { mshrs.new ≡ record mshrs.old { misses = staying cycle mshrs.old.misses } }
    ensures entered { tags.new ≡ with_lines (lines (arriving cycle mshrs.old.misses)) tags.old }
    ensures entered_second { second.new
        ≡ with_second_lines (from_memory (arriving cycle mshrs.old.misses)) second.old }
    ensures row { row.new ≡ with_events row.old (map event.Fill (lines (arriving cycle mshrs.old.misses))) }
    ensures few { IsLonger mshrs.old.room row.old row.new }
{
    for _ in 0..mshrs.len() {
        let Some((line, memory)) = mshrs.due(cycle) else {
            return;
        };
        tags.fill(line);
        fill_second(second, line, memory);
        row.push(Event::Fill(line));
    }
}

// A line enters the second level, if it comes from memory.
fn fill_second(second: &mut Second, line: u32, memory: bool)
    ensures { second.new ≡ with_second_line memory line second.old }
{
    if memory {
        second.fill(line);
    }
}
