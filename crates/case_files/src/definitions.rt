//! What the cases of a file name: the words of programs, and the texts of descriptions.
use crate::contents::word_of;
use crate::fault::{Fault, at_line};
use crate::file::Cases;
use crate::lines::{ItemKind, Line, named};
use crate::parts::{halves, has};
use machine_desc::EXAMPLE;
use std::alloc::{AllocError, Global};

/// The description that each file knows: that of `docs/formats.md`, "An example".
const KNOWN: &str = "example";

// The word of a line, whose instruction stands beside it.
fn word_in(line: Line<'_>) -> Result<u32, Fault> {
    if !line.is_inner {
        return at_line(line.number, "a program has words alone");
    }
    if !has(line.text, " ") {
        return at_line(line.number, "a word has its instruction beside it");
    }
    word_of(halves(line.text, " ").0, line.number)
}

/// The words of a program's lines.
pub(crate) fn words_of(alloc: Global, lines: &[Line<'_>]) -> Result<Vec<u32>, Fault> {
    let mut words = Vec::new(alloc);
    for line in lines {
        words.push(word_in(*line)?)?;
    }
    Ok(words)
}

// The text of a description's lines.
fn text_of(alloc: Global, lines: &[Line<'_>]) -> Result<String, AllocError> {
    let mut text = String::new(alloc);
    for line in lines {
        text.push_str(line.text)?;
        text.push_str("\n")?;
    }
    Ok(text)
}

/// What is wrong with the lines of a description of this name, if anything is.
pub(crate) fn is_described(name: &str, line: usize, lines: &[Line<'_>]) -> Result<(), Fault> {
    if name == KNOWN || lines.is_empty() {
        return at_line(
            line,
            "a description has a text, and another name than `example`",
        );
    }
    for line in lines {
        if !line.is_inner {
            return at_line(line.number, "a description has its text alone");
        }
    }
    Ok(())
}

/// The words of the program of this name.
pub(crate) fn program(
    alloc: Global,
    cases: &Cases<'_>,
    name: &str,
    line: usize,
) -> Result<Vec<u32>, Fault> {
    match named(cases.items.as_slice(), ItemKind::Program, name) {
        Some(item) => words_of(alloc, item.lines(cases.lines.as_slice())),
        None => at_line(line, "no program has this name"),
    }
}

/// The text of the description of this name.
pub(crate) fn description(
    alloc: Global,
    cases: &Cases<'_>,
    name: &str,
    line: usize,
) -> Result<String, Fault> {
    if name == KNOWN {
        return Ok(String::from_str(alloc, EXAMPLE)?);
    }
    match named(cases.items.as_slice(), ItemKind::Description, name) {
        Some(item) => Ok(text_of(alloc, item.lines(cases.lines.as_slice()))?),
        None => at_line(line, "no description has this name"),
    }
}
