//! A core's run, counted cycle by cycle, and the lines on the way. Nothing here takes memory.
ghost use Rattle.std.specs.Prelude.{◌≡◌, ◌<◌, ◌≤◌, ◌+◌, ◌++◌, ◌-◌, ◌∷◌, ◌^◌, [], List, ℕ, Some, None, option_map};
ghost use Rattle.elf_loader.specs.inner.Code.{word_at};
ghost use Rattle.run_counts.specs.inner.Counting.{AtMost};
ghost use Rattle.slot_reasons.specs.Reasons.{first_known};
ghost use Rattle.slot_reasons.specs.Slots.{Seen, charge_of, known_after, known_at};
ghost use Rattle.window_model.specs.Cycle.{cycle};
ghost use Rattle.stats_top.specs.Stats.{numbers_of};
ghost use Rattle.stats_top.specs.inner.Counting.{CountedTo, Sound, WritesWay};

use crate::lines::stretch_line;
use crate::numbers::Numbers;
use core_cycle::Core;
use machine_desc::Desc;
use rename_taint::RenameTaint;
use rv_types::Piece;
use slot_reasons::{Known, first_known};
use stats_words::Every;
use tool_io::{Failed, Sink};
use window_model::{Clocked, Row, empty_row};

/// What is carried from cycle to cycle, and what each cycle fills anew: one serves many stretches.
#[derive(Drop)]
struct Carried {
    known: Known,
    row: Row,
    piece: Piece,
}

// What is carried into the first cycle.
fn carried_at_first() -> Carried
    ensures { result.known ≡ first_known }
{
    Carried {
        known: first_known(),
        row: empty_row(),
        piece: Piece::new(),
    }
}

// One cycle, counted behind those of which these are the numbers.
#[inline(always)]
fn see_cycle<R: RenameTaint>(
    core: &mut Core<R>,
    desc: &Desc,
    carried: &mut Carried,
    numbers: &mut Numbers,
)
    requires desc { desc.now ≡ core.old.desc }
    requires sound { Sound core.old.desc core.old.machine }
    requires running { core.old.machine.end ≡ None }
    requires few { core.old.machine.cycle < 2 ^ 32 - 1 }
    requires counts { AtMost (2 ^ 62) numbers.old.counts }
    ensures cycled { record { machine = core.new.machine; row = carried.new.row; piece = carried.new.piece }
        ≡ cycle core.old.desc (word_at core.old.code) core.old.machine }
    ensures counted { (seen : List Seen) → numbers.old ≡ numbers_of seen
        → numbers.new ≡ numbers_of (seen ++ record {
          row = carried.new.row;
          charge = charge_of core.old.desc carried.old.known core.old.machine
              (cycle core.old.desc (word_at core.old.code) core.old.machine);
        } ∷ []) }
    ensures known { carried.new.known ≡ known_after core.old.desc carried.old.known core.old.machine
        (cycle core.old.desc (word_at core.old.code) core.old.machine) }
    ensures sound { Sound core.new.desc core.new.machine }
    ensures desc { core.new.desc ≡ core.old.desc }
    ensures code { word_at core.new.code ≡ word_at core.old.code }
    ensures few { (most : ℕ) → AtMost most numbers.old.counts → AtMost (most + 256) numbers.new.counts }
{
    let before = core.retired();
    core.cycle(&mut carried.row, &mut carried.piece);
    let retired = core.retired().saturating_sub(before);
    numbers.count(core, desc, &mut carried.known, &carried.row, retired);
}

// Runs at most so many cycles, and counts what is seen of each.
fn count_stretch<R: RenameTaint>(
    core: &mut Core<R>,
    desc: &Desc,
    cycles: u32,
    carried: &mut Carried,
) -> Numbers
    requires desc { desc.now ≡ core.old.desc }
    requires sound { Sound core.old.desc core.old.machine }
    requires few { core.old.machine.cycle + cycles < 2 ^ 32 }
    ensures counted { CountedTo result core.old.desc (word_at core.old.code) cycles
        core.old.machine core.new.machine carried.old.known }
    ensures known { carried.new.known
        ≡ known_at core.old.desc (word_at core.old.code) cycles core.old.machine carried.old.known }
    ensures sound { Sound core.new.desc core.new.machine }
    ensures later { core.old.machine.cycle ≤ core.new.machine.cycle }
    ensures desc { core.new.desc ≡ core.old.desc }
    ensures code { word_at core.new.code ≡ word_at core.old.code }
{
    let mut numbers = Numbers::new();
    for _done in 0..cycles {
        if core.end().is_some() {
            return numbers;
        }
        see_cycle(core, desc, carried, &mut numbers);
    }
    numbers
}

// Runs at most so many cycles in stretches, each of which but the last is whole, and writes the line of each that is.
fn count_stretches<R: RenameTaint, S: Sink>(
    core: &mut Core<R>,
    desc: &Desc,
    cycles: u32,
    every: Every,
    out: &mut S,
) -> Result<Numbers, Failed>
    requires desc { desc.now ≡ core.old.desc }
    requires sound { Sound core.old.desc core.old.machine }
    requires few { core.old.machine.cycle + cycles < 2 ^ 32 }
    ensures { WritesWay (Some every.cycles) core.old.desc (word_at core.old.code) cycles
        core.old.machine core.new.machine (S.told out.old) (S.told out.new) result }
{
    let mut carried = carried_at_first();
    let mut numbers = Numbers::new();
    let mut left = cycles;
    while 0 < left {
        let next = left.min(every.cycles);
        let before = core.cycles();
        let since = count_stretch(core, desc, next, &mut carried);
        numbers.add(&since);
        if core.cycles() - before < every.cycles {
            return Ok(numbers);
        }
        out.put(stretch_line(core.cycles(), &since).as_slice())?;
        left -= next;
    }
    Ok(numbers)
}

/// Runs at most so many cycles, counts what is seen of each, and writes the lines on the way, if they are asked for, by
/// one put each. Error: `Failed`, only where the sink's count of faults rose; then a part of them was written.
pub(crate) fn count_run<R: RenameTaint, S: Sink>(
    core: &mut Core<R>,
    desc: &Desc,
    cycles: u32,
    every: Option<Every>,
    out: &mut S,
) -> Result<Numbers, Failed>
    requires desc { desc.now ≡ core.old.desc }
    requires sound { Sound core.old.desc core.old.machine }
    requires few { core.old.machine.cycle + cycles < 2 ^ 32 }
    ensures { WritesWay (option_map (λ k. k.cycles) every) core.old.desc (word_at core.old.code) cycles
        core.old.machine core.new.machine (S.told out.old) (S.told out.new) result }
{
    match every {
        Some(every) => count_stretches(core, desc, cycles, every, out),
        None => Ok(count_stretch(core, desc, cycles, &mut carried_at_first())),
    }
}
