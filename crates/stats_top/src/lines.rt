//! The lines of what is counted (`docs/formats.md`, "The program stt_stats").
ghost use Rattle.std.specs.Prelude.{◌≡◌, ◌≤◌, ◌+◌, ◌*◌, ◌++◌, length, flat_map};
ghost use Rattle.run_counts.specs.Counted.{names};
ghost use Rattle.slot_reasons.specs.Slots.{slot_names};
ghost use Rattle.stats_top.specs.Stats.{all_lines, and_number, number_line, number_lines, stretch_line};

use crate::numbers::Numbers;
use line_text::Line;
use run_counts::{COUNTED, Counts, NAME_MAX, name_at};
use slot_reasons::{SLOTS, Slots, slot_name_at};

// Adds a blank before each number, and the number.
fn add_numbers(line: &mut Line, numbers: &[u64])
    requires { length line.old + 21 * length numbers.now ≤ 2000 }
    ensures text { line.new ≡ line.old ++ flat_map and_number numbers.now }
    ensures short { length line.new ≤ length line.old + 21 * length numbers.now }
{
    for n in numbers {
        line.add(b" ");
        line.add_decimal(*n);
    }
}

/// The line of a stretch of cycles: the number of its last cycle, and what is counted in it.
#[tactic(auto, unfolding(crate::specs::Stats::stretch_line))]
pub(crate) fn stretch_line(cycle: u32, numbers: &Numbers) -> Line
    ensures { result ≡ stretch_line cycle numbers.now }
{
    let mut line = Line::new();
    line.add_decimal_word(cycle);
    add_numbers(&mut line, numbers.counts().as_slice());
    add_numbers(&mut line, numbers.slots().as_slice());
    line.add(b"\n");
    line
}

// Adds the line of a number.
fn add_number_line(line: &mut Line, name: &[u8], n: u64)
    requires room { length line.old ≤ 4000 }
    requires short { length name.now ≤ NAME_MAX }
    ensures text { line.new ≡ line.old ++ number_line name.now n }
    ensures short { length line.new ≤ length line.old + 43 }
{
    line.add(name);
    line.add(b" ");
    line.add_decimal(n);
    line.add(b"\n");
}

// Adds the lines of the numbers of the rows.
fn add_counts(lines: &mut Line, counts: &Counts)
    requires room { length lines.old ≤ 1000 }
    ensures text { lines.new ≡ lines.old ++ number_lines names counts.now }
    ensures short { length lines.new ≤ length lines.old + 1505 }
{
    let numbers = counts.as_slice();
    for place in 0..COUNTED {
        add_number_line(lines, name_at(place), numbers[place]);
    }
}

// Adds the lines of the slots.
fn add_slots(lines: &mut Line, slots: &Slots)
    requires room { length lines.old ≤ 3000 }
    ensures text { lines.new ≡ lines.old ++ number_lines slot_names slots.now }
{
    let numbers = slots.as_slice();
    for place in 0..SLOTS {
        add_number_line(lines, slot_name_at(place), numbers[place]);
    }
}

/// The lines of all numbers, each with its name.
pub(crate) fn all_lines(numbers: &Numbers) -> Line
    ensures { result ≡ all_lines numbers.now }
{
    let mut lines = Line::new();
    add_counts(&mut lines, numbers.counts());
    add_slots(&mut lines, numbers.slots());
    lines
}
