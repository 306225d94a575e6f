//! The program that judges by one run whether a secret shows: by that of a core for every value of the secret bytes, by
//! that of the instruction set for every core with the defence `delay` as well, or where first it does.
//!
//! Rules: none, since `main` hands its words, the host's files and the standard streams to `secrets_program`, which
//! does all the rest.
//!
//! Promises: nothing of its own: `main` hands `secrets_program` its words as they were read, the host's files and the
//! standard streams.
//!
//! Clauses: `main`.
#![tactic(auto)]

use secrets_top::secrets_program;
use std::process::ExitCode;
use tool_io::{RealFiles, RealSink};
use tool_words::own_words;

fn main(rt: HostRuntime) -> ExitCode {
    let alloc = rt.alloc();
    let words = own_words(&rt, alloc);
    let mut files = RealFiles::new(&rt);
    let mut out = RealSink::new(rt.stdout());
    let mut note = RealSink::new(rt.stderr());
    secrets_program(alloc, words, &mut files, &mut out, &mut note)
}
