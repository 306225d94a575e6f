//! The program that counts what happens in a core's run, as its trace would tell it, and tells the numbers on the way
//! where they are asked for.
//!
//! Rules: none, since `main` hands its words, the host's files and the standard streams to `stats_program`, which
//! does all the rest.
//!
//! Promises: nothing of its own: `main` hands `stats_program` its words as they were read, the host's files and the
//! standard streams.
//!
//! Clauses: `main`.
#![tactic(auto)]

use stats_top::stats_program;
use std::process::ExitCode;
use tool_io::{RealFiles, RealSink};
use tool_words::own_words;

fn main(rt: HostRuntime) -> ExitCode {
    let alloc = rt.alloc();
    let words = own_words(&rt, alloc);
    let mut files = RealFiles::new(&rt);
    let mut out = RealSink::new(rt.stdout());
    let mut note = RealSink::new(rt.stderr());
    stats_program(alloc, words, &mut files, &mut out, &mut note)
}
