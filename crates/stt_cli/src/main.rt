//! Wadrelwy's program: a simulator of an out-of-order RV32IM core under Speculative Taint Tracking.
//!
//! Rules: none, since `main` hands its words, the host's files and the standard streams to `stt_program`, which does
//! all the rest.
//!
//! Promises: nothing of its own: `main` hands `stt_program` its words as they were read, the host's files and the
//! standard streams.
//!
//! Clauses: `main`.
#![tactic(auto)]

use std::process::ExitCode;
use stt_top::stt_program;
use tool_io::{RealFiles, RealSink};
use tool_words::own_words;

fn main(rt: HostRuntime) -> ExitCode {
    let alloc = rt.alloc();
    let words = own_words(&rt, alloc);
    let mut files = RealFiles::new(&rt);
    let mut out = RealSink::new(rt.stdout());
    let mut note = RealSink::new(rt.stderr());
    stt_program(alloc, words, &mut files, &mut out, &mut note)
}
