//! The words after the program's name: as the host hands them over, and lent.
ghost use Rattle.std.specs.Prelude.{◌≡◌, ◌≢◌, IfOk, IfErr, Ok, Err, map, string_bytes, []};
ghost use Rattle.std.specs.IoError.{error_kind};

use crate::Refused;
use std::alloc::Global;
use std::io::ErrorKind;
use std::rt::Env;
use std::{env, io};

// Why words can't be read: one that isn't UTF-8 is a wrong word.
fn refused_by(error: &io::Error) -> Refused
    ensures wanting { error_kind error.now ≡ ErrorKind.OutOfMemory → result ≡ Refused.Memory }
    ensures wrong { error_kind error.now ≢ ErrorKind.OutOfMemory → result ≡ Refused.Words }
{
    match error.kind() {
        ErrorKind::OutOfMemory => Refused::Memory,
        _ => Refused::Words,
    }
}

// The words behind the first, which is the program's name. The kit's `args` says nothing of the words that it gives:
// not how many, nor which bytes, nor in which order, nor what an error stands for. So no clause stands here.
fn behind_name(rt: &(impl Env + AllocGlobal), alloc: Global) -> io::Result<Vec<String>> {
    let mut words = Vec::new(alloc);
    for word in env::args(rt)?.skip(1) {
        words.push(word)?;
    }
    Ok(words)
}

/// The words after the program's name. Errors: `Words` where one of them isn't UTF-8; `Memory`. That these are all
/// words, in their order, is tested on the built programs (`tools/hostile/tests/test_statuses.py`).
pub fn own_words(rt: &(impl Env + AllocGlobal), alloc: Global) -> Result<Vec<String>, Refused> {
    match behind_name(rt, alloc) {
        Ok(words) => Ok(words),
        Err(error) => Err(refused_by(&error)),
    }
}

/// Lends each of these words, in their order. Error: `Memory`, only where there are some.
pub fn lend_words<'a>(alloc: Global, words: &'a [String]) -> Result<Vec<&'a str>, Refused>
    ensures lent { IfOk result (λ lent. map (λ w. w.now) lent.items ≡ map string_bytes words.now) }
    ensures wanting { IfErr result (λ e. (e ≡ Refused.Memory) × (words.now ≢ [])) }
{
    let mut lent = Vec::new(alloc);
    for word in words {
        if lent.push(word.as_str()).is_err() {
            return Err(Refused::Memory);
        }
    }
    Ok(lent)
}
