//! A run of a program over files and sinks in memory.
use case_files::{CaseFile, Failures, Program};
use rv_types::NoMemory;
use secrets_top::secrets_top;
use std::alloc::Global;
use stt_top::stt_top;
use tool_io::{Content, MemFail, MemFile, MemFiles, MemSink};

/// Room for every text of a case, in bytes.
const ROOM: usize = 65_536;

/// What a run of a program left.
#[derive(Drop)]
pub(crate) struct Left {
    pub(crate) status: u8,
    pub(crate) out: MemSink,
    pub(crate) note: MemSink,
}

// The files of a case, with the number of a read that is to fail.
fn files_of(alloc: Global, files: &[CaseFile], fail: u64) -> Result<MemFiles, NoMemory> {
    let mut held = Vec::new(alloc);
    for file in files {
        let name = Vec::from_slice(alloc, file.name.as_bytes())?;
        let bytes = Vec::from_slice(alloc, file.bytes.as_slice())?;
        held.push(MemFile {
            name: Content::new(name),
            bytes: Content::new(bytes),
        })?;
    }
    let mut fails = Vec::new(alloc);
    fails.push(fail)?;
    MemFiles::new(alloc, held, fails)
}

// A sink, with the number of a put that is to fail, 0 for none, and how many of its bytes go out before.
fn sink_of(alloc: Global, call: u64, sent: usize) -> Result<MemSink, NoMemory> {
    let mut fails = Vec::new(alloc);
    fails.push(MemFail { call, sent })?;
    MemSink::new(alloc, ROOM, fails)
}

/// Runs a program on these words and files, with what is to fail. The one error is want of memory to begin it.
pub(crate) fn run(
    alloc: Global,
    program: Program,
    words: &[&str],
    files: &[CaseFile],
    failures: Failures,
) -> Result<Left, NoMemory> {
    let mut files = files_of(alloc, files, failures.read)?;
    let mut out = sink_of(alloc, failures.put, failures.sent)?;
    let mut note = sink_of(alloc, failures.note, failures.noted)?;
    let status = match program {
        Program::Simulator => stt_top(alloc, words, &mut files, &mut out, &mut note),
        Program::Secrets => secrets_top(alloc, words, &mut files, &mut out, &mut note),
    };
    Ok(Left { status, out, note })
}
