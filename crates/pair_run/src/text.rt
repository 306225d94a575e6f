//! The text of an answer: three lines.
//!
//! What each line says stands in `specs/Comparison.antt` (`docs/formats.md`, "The comparison"). A put has one line, and
//! nothing here takes memory.
ghost use Rattle.std.specs.Prelude.{◌≡◌};
ghost use Rattle.tool_io.specs.Outside.{Writes};
ghost use Rattle.pair_run.specs.Comparison.{premise_line, differ_line, length_line, comparison};

use crate::answer::{Differ, PairAnswer};
use line_text::Line;
use tool_io::{Failed, Sink};

fn premise_line(premise: bool) -> &'static [u8]
    ensures { result.now ≡ premise_line premise }
{
    if premise {
        b"premise yes\n"
    } else {
        b"premise no\n"
    }
}

#[tactic(auto, unfolding(crate::specs::Comparison::differ_line))]
fn differ_line(differ: Differ) -> Line
    ensures { result ≡ differ_line differ }
{
    let mut line = Line::new();
    match differ {
        Differ::Same => line.add(b"equal"),
        Differ::Cycle(cycle) => {
            line.add(b"unequal ");
            line.add_decimal(cycle);
        }
        Differ::End => line.add(b"unequal end"),
    }
    line.add(b"\n");
    line
}

#[tactic(auto, unfolding(crate::specs::Comparison::length_line))]
fn length_line(retired: u64, cycles: u32) -> Line
    ensures { result ≡ length_line retired cycles }
{
    let mut line = Line::new();
    line.add(b"retired ");
    line.add_decimal(retired);
    line.add(b" cycles ");
    line.add_decimal_word(cycles);
    line.add(b"\n");
    line
}

fn write_premise<S: Sink>(premise: bool, out: &mut S) -> Result<(), Failed>
    ensures { Writes (premise_line premise) (S.told out.old) (S.told out.new) result }
{
    out.put(premise_line(premise))
}

fn write_differ<S: Sink>(differ: Differ, out: &mut S) -> Result<(), Failed>
    ensures { Writes (differ_line differ) (S.told out.old) (S.told out.new) result }
{
    out.put(differ_line(differ).as_slice())
}

fn write_length<S: Sink>(retired: u64, cycles: u32, out: &mut S) -> Result<(), Failed>
    ensures { Writes (length_line retired cycles) (S.told out.old) (S.told out.new) result }
{
    out.put(length_line(retired, cycles).as_slice())
}

/// Writes how two runs compare, one put a line: whether they have to be the same, how they differ, and how long the
/// first one was. Error: `Failed`, only where the sink's count of faults rose; then a prefix of the text was appended,
/// maybe none of it.
pub fn write_comparison<S: Sink>(answer: &PairAnswer, out: &mut S) -> Result<(), Failed>
    ensures { Writes (comparison answer.now) (S.told out.old) (S.told out.new) result }
{
    write_premise(answer.premise, out)?;
    write_differ(answer.first, out)?;
    write_length(answer.retired, answer.cycles, out)
}
