//! The last line (`docs/formats.md`, "The last line").
ghost use Rattle.std.specs.Prelude.{◌≡◌, ◌≤◌, ◌+◌, [], ◌++◌, length, Option};
ghost use Rattle.tool_io.specs.Outside.{Writes};
ghost use Rattle.line_text.specs.EndLine.{end_words, cycles_words, end_line};

use crate::Line;
use rv_types::{End, Ending};
use tool_io::{Failed, Sink};

fn add_end(line: &mut Line, end: Option<End>)
    requires { line.old ≡ [] }
    ensures text { line.new ≡ end_words end }
    ensures short { length line.new ≤ 100 }
{
    match end {
        None => line.add(b"end budget"),
        Some(End::Exit(value)) => {
            line.add(b"end exit ");
            line.add_decimal(value as u64);
        }
        Some(End::Trap(cause, pc)) => {
            line.add(b"end trap ");
            line.add_decimal(cause.number as u64);
            line.add(b" ");
            line.add_hex8(pc);
        }
    }
}

fn add_cycles(line: &mut Line, cycles: Option<u32>)
    requires { length line.old ≤ 200 }
    ensures text { line.new ≡ line.old ++ cycles_words cycles }
    ensures short { length line.new ≤ length line.old + 30 }
{
    if let Some(cycles) = cycles {
        line.add(b" cycles ");
        line.add_decimal(cycles as u64);
    }
}

#[tactic(auto, unfolding(crate::specs::EndLine::end_line))]
fn end_line(ending: &Ending) -> Line
    ensures { result ≡ end_line ending.now }
{
    let mut line = Line::new();
    add_end(&mut line, ending.end);
    line.add(b" retired ");
    line.add_decimal(ending.retired);
    add_cycles(&mut line, ending.cycles);
    line.add(b"\n");
    line
}

/// Writes the last line, by one put. Error: `Failed`, only where the sink's count of faults rose; then the first bytes
/// of the line were appended, maybe none.
pub fn write_end<S: Sink>(ending: &Ending, out: &mut S) -> Result<(), Failed>
    ensures { Writes (end_line ending.now) (S.told out.old) (S.told out.new) result }
{
    out.put(end_line(ending).as_slice())
}
