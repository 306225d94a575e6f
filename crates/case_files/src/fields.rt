//! The fields of a case, read one by one into its run.
use crate::contents::{CaseFile, number_of, stepped};
use crate::fault::{Fault, at_line};
use crate::file::Cases;
use crate::parts::{behind, halves, has};
use crate::report::whole_report;
use crate::run::{Failures, Program, Run, Text, TextKind};
use std::alloc::Global;

/// What the lines of a case have said so far.
#[derive(Clone, Copy)]
pub(crate) struct SoFar {
    has_command: bool,
    has_status: bool,
    has_note: bool,
    // the line that lets each put fail, 0 where none does
    each_put: usize,
    // whether lines of a block go to the last text
    is_open: bool,
}

impl SoFar {
    /// Nothing has been said.
    pub(crate) fn new() -> SoFar {
        SoFar {
            has_command: false,
            has_status: false,
            has_note: false,
            each_put: 0,
            is_open: false,
        }
    }
}

// The command: a program and its words.
fn add_command(
    run: &mut Run,
    so_far: &mut SoFar,
    program: Program,
    said: &str,
    line: usize,
) -> Result<(), Fault> {
    if so_far.has_command {
        return at_line(line, "a case has one command");
    }
    if behind(said, " ").is_some() || has(said, "  ") {
        return at_line(line, "words stand apart by one space");
    }
    so_far.has_command = true;
    run.program = program;
    run.words.push_str(said)?;
    Ok(())
}

fn status_of(said: &str, so_far: &mut SoFar, line: usize) -> Result<u8, Fault> {
    match said.parse::<u8>() {
        Ok(status) if !so_far.has_status => {
            so_far.has_status = true;
            Ok(status)
        }
        _ => at_line(line, "a case has one status, of 0 to 8"),
    }
}

// The note that is wanted: a line, or with `cut` what was written of one.
fn add_note(note: &mut String, so_far: &mut SoFar, said: &str, line: usize) -> Result<(), Fault> {
    if so_far.has_note {
        return at_line(line, "a case has one note");
    }
    so_far.has_note = true;
    if let Some(cut) = behind(said, "cut ") {
        return Ok(note.push_str(cut)?);
    }
    note.push_str(said)?;
    Ok(note.push_str("\n")?)
}

// What is to fail.
fn add_failure(failures: &mut Failures, said: &str, line: usize) -> Result<(), Fault> {
    let (what, after) = halves(said, " after ");
    let sent = number_of(if after.is_empty() { "0" } else { after }, line)? as usize;
    let (what, call) = halves(what, " ");
    let call = u64::from(number_of(call, line)?);
    match what {
        "read" => failures.read = call,
        "put" => {
            failures.put = call;
            failures.sent = sent;
        }
        "note" => {
            failures.note = call;
            failures.noted = sent;
        }
        _ => return at_line(line, "a read, a put or the note fails"),
    }
    Ok(())
}

// A text that is wanted, and whether its lines stand in the block that follows.
fn add_text(
    alloc: Global,
    texts: &mut Vec<Text>,
    keyword: &str,
    said: &str,
    line: usize,
) -> Result<bool, Fault> {
    let (kind, words) = match (keyword, said) {
        ("out", "") => (TextKind::Whole, ""),
        ("out", "cut") => (TextKind::Cut, ""),
        ("out", "ends") => (TextKind::Ends, ""),
        ("out", "has") => (TextKind::Lines, ""),
        ("report", "") => (TextKind::Report, ""),
        ("same", _) => match behind(said, "but cycles ") {
            Some(words) => (TextKind::SameButCycles, words),
            None => (TextKind::Same, said),
        },
        _ => return at_line(line, "no text is said so"),
    };
    let text = String::from_str(alloc, words)?;
    texts.push(Text { kind, text })?;
    Ok(keyword != "same")
}

// A step that makes a file, or changes what those before have made of it.
fn make(
    alloc: Global,
    cases: &Cases<'_>,
    files: &mut Vec<CaseFile>,
    name: &str,
    step: &str,
    line: usize,
) -> Result<(), Fault> {
    let place = files.iter().position(|f| f.name.as_str() == name);
    if let Some(file) = files.get_mut(place.unwrap_or(files.len())) {
        file.bytes = stepped(alloc, cases, file.bytes.as_slice(), step, line)?;
        return Ok(());
    }
    let bytes = stepped(alloc, cases, &[], step, line)?;
    let name = String::from_str(alloc, name)?;
    files.push(CaseFile { name, bytes })?;
    Ok(())
}

/// Reads a field's line.
pub(crate) fn read_field(
    alloc: Global,
    cases: &Cases<'_>,
    run: &mut Run,
    so_far: &mut SoFar,
    text: &str,
    line: usize,
) -> Result<(), Fault> {
    so_far.is_open = false;
    let (keyword, said) = halves(text, " ");
    match keyword {
        "stt_cli" => return add_command(run, so_far, Program::Simulator, said, line),
        "stt_secrets" => return add_command(run, so_far, Program::Secrets, said, line),
        "status" => run.status = status_of(said, so_far, line)?,
        "note" => return add_note(&mut run.note, so_far, said, line),
        "fails" => return add_failure(&mut run.failures, said, line),
        "out" | "report" | "same" => {
            so_far.is_open = add_text(alloc, &mut run.texts, keyword, said, line)?;
        }
        "each" if said == "put fails" => {
            so_far.each_put = line;
            run.each_put = true;
        }
        "also" if said == "without note" => run.silent = true,
        _ if has(keyword, ".") => {
            return make(alloc, cases, &mut run.files, keyword, said, line);
        }
        _ => return at_line(line, "no field of a case begins so"),
    }
    Ok(())
}

/// Reads a line of a block.
pub(crate) fn read_inner(
    texts: &mut [Text],
    so_far: &SoFar,
    text: &str,
    line: usize,
) -> Result<(), Fault> {
    match texts.last_mut() {
        Some(last) if so_far.is_open => {
            last.text.push_str(text)?;
            last.text.push_str("\n")?;
            Ok(())
        }
        _ => at_line(line, "the line belongs to no block"),
    }
}

// Makes a text as it is compared, which has a line.
fn finish_text(alloc: Global, text: &mut Text, line: usize) -> Result<(), Fault> {
    if text.text.is_empty() {
        return at_line(line, "a text that is wanted has a line");
    }
    if text.kind == TextKind::Report {
        text.text = whole_report(alloc, text.text.as_str(), line)?;
        text.kind = TextKind::Whole;
    }
    Ok(())
}

// Whether there is one text, and it is the whole output.
fn is_one_whole(texts: &[Text]) -> bool {
    match texts {
        [text] => text.kind == TextKind::Whole,
        _ => false,
    }
}

/// Ends the run of the case that begins with this line.
pub(crate) fn finish(
    alloc: Global,
    run: &mut Run,
    so_far: &SoFar,
    line: usize,
) -> Result<(), Fault> {
    for text in run.texts.iter_mut() {
        finish_text(alloc, text, line)?;
    }
    if !so_far.has_command {
        return at_line(line, "a case has a command");
    }
    if !so_far.has_status {
        return at_line(line, "a case has a status");
    }
    if run.each_put && !is_one_whole(run.texts.as_slice()) {
        return at_line(
            so_far.each_put,
            "each put fails of one text, which is the whole output",
        );
    }
    if run.texts.is_empty() && !so_far.has_note && (run.status < 2 || run.status == 3) {
        return at_line(line, "a run that ends is wanted to write a text");
    }
    Ok(())
}
