//! Reports, of which a case leaves out the registers that are 0.
use crate::fault::{Fault, at_line};
use crate::parts::{behind, halves};
use std::alloc::{AllocError, Global};

/// How many registers there are.
const REGISTERS: u32 = 32;

// Appends the lines of the registers from one on to before another, which are 0.
fn add_zeros(alloc: Global, to: &mut String, from: u32, end: u32) -> Result<(), AllocError> {
    for number in from..end {
        let line = format!(in alloc; "x{number} 00000000\n")?;
        to.push_str(line.as_str())?;
    }
    Ok(())
}

// Before the line of which register, counted from 0, a line stands, and before which the next one does then: output
// before that of the first, a register's before its own, and all others behind the last.
fn place_of(line: &str, next: u32) -> Option<(u32, u32)> {
    let word = halves(line, " ").0;
    match word {
        "out" if next == 0 => Some((0, 0)),
        "pc" | "mem" | "end" => Some((REGISTERS, REGISTERS)),
        _ => {
            let number = behind(word, "x")?.parse::<u32>().ok()?;
            if number < next || number >= REGISTERS {
                return None;
            }
            Some((number, number.saturating_add(1)))
        }
    }
}

/// The whole report, with the lines of all registers.
pub(crate) fn whole_report(alloc: Global, text: &str, line: usize) -> Result<String, Fault> {
    let mut whole = String::new(alloc);
    let mut next = 0u32;
    for said in text.lines() {
        let Some((before, then)) = place_of(said, next) else {
            return at_line(line, "a report has other lines, or in another order");
        };
        add_zeros(alloc, &mut whole, next, before)?;
        next = then;
        whole.push_str(said)?;
        whole.push_str("\n")?;
    }
    if next < REGISTERS {
        return at_line(line, "a report has a line behind its registers");
    }
    Ok(whole)
}
