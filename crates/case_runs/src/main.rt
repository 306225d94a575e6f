//! The program that makes the runs of cases, of `stt_cli` and `stt_secrets` over files and sinks in memory, and tells
//! of each case whether its runs went as it says.
//!
//! The words of this program are the names of the files. It writes a line a case, a line for each run that differs, and
//! last how many cases, runs and differences there were. Status: 0 nothing differs, 1 something does, 2 a file can't be
//! read as cases, which the last line tells with the file and its line.
//!
//! Rules: `docs/cases.md`.
//!
//! Promises: a whole text, and a status with its note, that aren't told to differ from those that are wanted are equal
//! to them. That each run is compared is tested (`tools/cases/tests`), and the gate compares what is told.
//!
//! Clauses: `end_differs`, `whole_differs`.
#![tactic(auto)]

mod comparing;
mod running;
mod trying;

use crate::trying::try_run;
use case_files::{Fault, Run, read_cases, runs_of};
use rv_types::NoMemory;
use std::alloc::Global;
use std::process::ExitCode;
use std::rt::Files;
use std::{fs, io};
use tool_words::own_words;

/// How many there were.
#[derive(Clone, Copy)]
struct Counts {
    cases: u64,
    runs: u64,
    differ: u64,
}

/// Why the cases of a file weren't all run.
#[derive(Drop)]
enum Stopped {
    Fault(Fault),
    Output(io::Error),
}

impl From<Fault> for Stopped {
    fn from(fault: Fault) -> Stopped {
        Stopped::Fault(fault)
    }
}

impl From<NoMemory> for Stopped {
    fn from(_error: NoMemory) -> Stopped {
        Stopped::Fault(Fault::Memory)
    }
}

impl From<io::Error> for Stopped {
    fn from(error: io::Error) -> Stopped {
        Stopped::Output(error)
    }
}

// Makes the runs of a case, and tells how they went.
fn go_case(
    rt: &(impl Print + AllocGlobal),
    alloc: Global,
    name: &str,
    runs: &[Run],
    counts: &mut Counts,
) -> Result<(), Stopped> {
    let mut made = 0u64;
    let mut differ = 0u64;
    let mut row = 0u64;
    for run in runs {
        row = row.saturating_add(1);
        let tried = try_run(alloc, run)?;
        made = made.saturating_add(tried.runs);
        if let Some(what) = tried.differs {
            differ = differ.saturating_add(1);
            println!(rt; "differs {name}, row {row}: {what}")?;
        }
    }
    if differ == 0 {
        println!(rt; "ok {name} {made}")?;
    }
    counts.cases = counts.cases.saturating_add(1);
    counts.runs = counts.runs.saturating_add(made);
    counts.differ = counts.differ.saturating_add(differ);
    Ok(())
}

// Makes the runs of all cases of a file.
fn go_cases(
    rt: &(impl Print + AllocGlobal),
    alloc: Global,
    text: &str,
    counts: &mut Counts,
) -> Result<(), Stopped> {
    let cases = read_cases(alloc, text)?;
    for case in &cases.cases {
        let runs = runs_of(alloc, &cases, case)?;
        go_case(rt, alloc, case.name, runs.as_slice(), counts)?;
    }
    Ok(())
}

// Makes the runs of all cases of the file of this name, below a line with its name.
fn go_file(
    rt: &(impl Print + AllocGlobal + Files),
    alloc: Global,
    name: &str,
    counts: &mut Counts,
) -> Result<(), Stopped> {
    println!(rt; "{name}")?;
    let text = fs::read_to_string(rt, name)?;
    go_cases(rt, alloc, text.as_str(), counts)
}

// Tells why the cases of a file weren't all run.
fn tell(rt: &(impl Print + AllocGlobal), name: &str, why: &Stopped) -> io::Result<()> {
    match why {
        Stopped::Fault(fault) => println!(rt; "{name}: {fault}"),
        Stopped::Output(error) => println!(rt; "{name}: {error}"),
    }
}

// Goes over the files of these names, and tells how it went. Answers the status.
fn go_files(
    rt: &(impl Print + AllocGlobal + Files),
    alloc: Global,
    names: &[String],
) -> io::Result<u8> {
    let mut counts = Counts {
        cases: 0,
        runs: 0,
        differ: 0,
    };
    for name in names {
        if let Err(why) = go_file(rt, alloc, name.as_str(), &mut counts) {
            tell(rt, name.as_str(), &why)?;
            return Ok(2);
        }
    }
    let Counts {
        cases,
        runs,
        differ,
    } = counts;
    println!(rt; "{cases} cases, {runs} runs, {differ} differ")?;
    Ok(u8::from(differ > 0))
}

fn main(rt: HostRuntime) -> ExitCode {
    let alloc = rt.alloc();
    let Ok(names) = own_words(&rt, alloc) else {
        return ExitCode::from(2);
    };
    let status = if names.is_empty() {
        2
    } else {
        go_files(&rt, alloc, names.as_slice()).unwrap_or(2)
    };
    ExitCode::from(status)
}
