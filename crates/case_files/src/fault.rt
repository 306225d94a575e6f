//! What is wrong with a file of cases.
ghost use Rattle.std.specs.Prelude.{◌≡◌, Err};
ghost use Rattle.case_files.specs.declared.fault.Fault.TheVariants.{AtLine};

use std::alloc::{AllocError, AllocFailed};
use thiserror::Error;

/// Why a file of cases isn't read.
#[derive(Debug, Drop, Error)]
pub enum Fault {
    /// There was no memory for what it says.
    #[error("there is no memory for the cases")]
    Memory,
    /// A line, counted from 1, is at fault.
    #[error("line {line}: {what}")]
    AtLine { line: usize, what: &'static str },
    /// There is no case in it.
    #[error("there is no case in it")]
    Empty,
}

impl From<AllocError> for Fault {
    fn from(_error: AllocError) -> Fault {
        Fault::Memory
    }
}

impl<T: Drop> From<AllocFailed<T>> for Fault {
    fn from(_error: AllocFailed<T>) -> Fault {
        Fault::Memory
    }
}

/// The fault of a line.
pub(crate) fn at_line<T>(line: usize, what: &'static str) -> Result<T, Fault>
    ensures { result ≡ Err (AtLine line what.entry) }
{
    Err(Fault::AtLine { line, what })
}
