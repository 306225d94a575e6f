//! What the load of a cycle leaves of the cache, of its second level and of the miss registers (`docs/machine.md`,
//! "Issue").
ghost use Rattle.std.specs.Prelude.{◌≡◌, ◌<◌, ◌≤◌, ◌+◌, ◌++◌, length, map};
ghost use Rattle.std.specs.List.{fold};
ghost use Rattle.std.specs.Option.{option_to_list};
ghost use Rattle.window_model.specs.Access.{register};
ghost use Rattle.window_model.specs.SecondLevel.{second_touched};
ghost use Rattle.issue.specs.Shared.{cache_left, misses_left, requests_of_load, second_left};

use cache_tags::Tags;
use machine_desc::Desc;
use mshr_file::Mshrs;
use second_level::Second;
use window_model::{Access, Request};

/// Moves each line of a load to the front of its set, where the cache has it.
pub(crate) fn touch(tags: &mut Tags, load: Option<Access>)
    ensures { tags.new ≡ record tags.old { sets = cache_left tags.old.desc load tags.old.sets } }
{
    if let Some(Access::Looks(lines, _)) = load {
        let _ = tags.touch(lines.lower.line());
        if let Some(upper) = lines.upper {
            let _ = tags.touch(upper.line());
        }
    }
}

// A line takes a miss register, if one is asked for, and moves to the front of its set where the second level has it.
fn take_register(
    mshrs: &mut Mshrs,
    second: &mut Second,
    request: Option<Request>,
    cycle: u32,
    desc: &Desc,
)
    requires room { length mshrs.old.misses + length (option_to_list request) ≤ mshrs.old.room }
    ensures misses { mshrs.new ≡ record mshrs.old {
      misses = mshrs.old.misses ++ map (register desc.now cycle) (option_to_list request);
    } }
    ensures second { second.new ≡ record second.old {
      sets = fold (second_touched second.old.desc) second.old.sets
          (map (λ r. r.line) (option_to_list request));
    } }
{
    if let Some(request) = request {
        let due = request.due(cycle as u64, desc);
        mshrs.take(request.line, due, request.from_memory);
        let _ = second.look(request.line);
    }
}

/// Lines of a load that miss take a register each, the lower first, and then the line that is prefetched does.
pub(crate) fn take_registers(
    mshrs: &mut Mshrs,
    second: &mut Second,
    load: Option<Access>,
    cycle: u32,
    desc: &Desc,
)
    requires room { length mshrs.old.misses + length (requests_of_load load) ≤ mshrs.old.room }
    ensures misses { mshrs.new ≡ record mshrs.old {
      misses = misses_left desc.now cycle load mshrs.old.misses;
    } }
    ensures second { second.new ≡ record second.old {
      sets = second_left second.old.desc load second.old.sets;
    } }
{
    if let Some(Access::Looks(lines, ahead)) = load {
        take_register(mshrs, second, lines.lower.request(), cycle, desc);
        take_register(mshrs, second, lines.upper_request(), cycle, desc);
        take_register(mshrs, second, ahead, cycle, desc);
    }
}
