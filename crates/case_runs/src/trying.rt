//! A run of a case, made as often as the case asks, and what differs.
use crate::comparing::{end_differs, text_differs};
use crate::running::{Left, run};
use case_files::{Failures, NOTHING, Program, Run, Text, TextKind};
use rv_types::NoMemory;
use std::alloc::Global;

/// How many runs were made, and what differs in the last of them, if anything does. Nothing is run behind one that
/// differs.
#[derive(Drop)]
pub(crate) struct Tried {
    pub(crate) runs: u64,
    pub(crate) differs: Option<String>,
}

// What a run has to leave: where it is cut by a put that fails its whole output, else what its case says of that.
#[derive(Clone, Copy)]
struct Wanted<'a> {
    status: u8,
    note: &'a str,
    cut: Option<&'a str>,
}

// The words that are said, one space apart; `""` stands for the empty one.
fn words_of<'a>(alloc: Global, said: &'a str) -> Result<Vec<&'a str>, NoMemory> {
    let mut words = Vec::new(alloc);
    if said.is_empty() {
        return Ok(words);
    }
    for word in said.split(' ') {
        words.push(if word == "\"\"" { "" } else { word })?;
    }
    Ok(words)
}

// Runs a program on words that are said and the files of a run.
fn run_by(
    alloc: Global,
    of: &Run,
    program: Program,
    said: &str,
    failures: Failures,
) -> Result<Left, NoMemory> {
    let words = words_of(alloc, said)?;
    run(
        alloc,
        program,
        words.as_slice(),
        of.files.as_slice(),
        failures,
    )
}

// How what a run wrote differs from one text that is wanted.
fn one_differs(
    alloc: Global,
    of: &Run,
    left: &Left,
    text: &Text,
) -> Result<Option<String>, NoMemory> {
    let wanted = text.text.as_str();
    if text.kind != TextKind::Same && text.kind != TextKind::SameButCycles {
        return text_differs(alloc, text.kind, left.out.as_slice(), wanted);
    }
    let other = run_by(alloc, of, Program::Simulator, wanted, NOTHING)?;
    let wanted = std::str::from_utf8(other.out.as_slice()).unwrap_or("no text");
    text_differs(alloc, text.kind, left.out.as_slice(), wanted)
}

// How what a run wrote differs from what its case says of it, which is nothing where it says nothing.
fn output_differs(alloc: Global, of: &Run, left: &Left) -> Result<Option<String>, NoMemory> {
    for text in &of.texts {
        if let Some(what) = one_differs(alloc, of, left, text)? {
            return Ok(Some(what));
        }
    }
    if of.texts.is_empty() {
        return text_differs(alloc, TextKind::Whole, left.out.as_slice(), "");
    }
    Ok(None)
}

// How a run that was made differs from what is wanted of it.
fn differs(
    alloc: Global,
    of: &Run,
    left: &Left,
    wanted: Wanted<'_>,
) -> Result<Option<String>, NoMemory> {
    let found = (left.status, left.note.as_slice());
    if let Some(what) = end_differs(alloc, found, (wanted.status, wanted.note))? {
        return Ok(Some(what));
    }
    let what = match wanted.cut {
        Some(cut) => text_differs(alloc, TextKind::Whole, left.out.as_slice(), cut)?,
        None => output_differs(alloc, of, left)?,
    };
    match what {
        Some(what) => Ok(Some(format!(in alloc; "the output differs, {what}")?)),
        None => Ok(None),
    }
}

// Makes a run with what is to fail, unless something differs already.
fn make(
    alloc: Global,
    of: &Run,
    failures: Failures,
    wanted: Wanted<'_>,
    tried: &mut Tried,
) -> Result<(), NoMemory> {
    if tried.differs.is_some() {
        return Ok(());
    }
    let left = run_by(alloc, of, of.program, of.words.as_str(), failures)?;
    tried.runs = tried.runs.saturating_add(1);
    tried.differs = differs(alloc, of, &left, wanted)?;
    Ok(())
}

// Makes a run, and, where the case asks for it, once more with a note that can't be written.
fn try_with(
    alloc: Global,
    of: &Run,
    failures: Failures,
    wanted: Wanted<'_>,
    tried: &mut Tried,
) -> Result<(), NoMemory> {
    make(alloc, of, failures, wanted, tried)?;
    if of.silent {
        let unsaid = Failures {
            note: 1,
            ..failures
        };
        make(alloc, of, unsaid, Wanted { note: "", ..wanted }, tried)?;
    }
    Ok(())
}

// Lets the put of a line fail, with none, one and all but one of its bytes gone out: what is written is what is wanted
// of the lines before, and those bytes.
fn try_line(
    alloc: Global,
    of: &Run,
    put: u64,
    lines: (&str, usize, usize),
    tried: &mut Tried,
) -> Result<(), NoMemory> {
    let (text, before, length) = lines;
    for sent in [0, 1, length] {
        let wanted = Wanted {
            status: 7,
            note: "write\n",
            cut: Some(text.get(..before.saturating_add(sent)).unwrap_or("no text")),
        };
        let failures = Failures {
            put,
            sent,
            ..of.failures
        };
        try_with(alloc, of, failures, wanted, tried)?;
    }
    Ok(())
}

// Lets the put of each line of a text fail in turn; and the put behind the last line, which isn't made.
fn try_puts(
    alloc: Global,
    of: &Run,
    text: &str,
    wanted: Wanted<'_>,
    tried: &mut Tried,
) -> Result<(), NoMemory> {
    let mut before = 0usize;
    let mut put = 1u64;
    for line in text.lines() {
        try_line(alloc, of, put, (text, before, line.len()), tried)?;
        before = before.saturating_add(line.len()).saturating_add(1);
        put = put.saturating_add(1);
    }
    let failures = Failures { put, ..of.failures };
    try_with(alloc, of, failures, wanted, tried)
}

/// Makes a run as often as its case asks. The one error is want of memory to make it.
pub(crate) fn try_run(alloc: Global, of: &Run) -> Result<Tried, NoMemory> {
    let mut tried = Tried {
        runs: 0,
        differs: None,
    };
    let wanted = Wanted {
        status: of.status,
        note: of.note.as_str(),
        cut: None,
    };
    try_with(alloc, of, of.failures, wanted, &mut tried)?;
    if let (true, Some(text)) = (of.each_put, of.texts.first()) {
        try_puts(alloc, of, text.text.as_str(), wanted, &mut tried)?;
    }
    Ok(tried)
}
