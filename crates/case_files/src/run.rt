//! A run that a case asks for, and how it has to end.
use crate::contents::CaseFile;
use std::alloc::Global;

/// The programs.
#[derive(Clone, Copy, Debug, PartialEq, Eq)]
pub enum Program {
    /// `stt_cli`, the simulator.
    Simulator,
    /// `stt_secrets`, which judges whether a secret shows.
    Secrets,
}

/// What is to fail, by its number, 0 for nothing.
#[derive(Clone, Copy, Debug, PartialEq, Eq)]
pub struct Failures {
    /// The read that fails.
    pub read: u64,
    /// The put of the output that fails, and how many of its bytes go out before.
    pub put: u64,
    pub sent: usize,
    /// The put of the note that fails, and how many of its bytes go out before.
    pub note: u64,
    pub noted: usize,
}

/// No read and no put fails.
pub const NOTHING: Failures = Failures {
    read: 0,
    put: 0,
    sent: 0,
    note: 0,
    noted: 0,
};

/// How a text is compared with what a run writes.
#[derive(Clone, Copy, Debug, PartialEq, Eq)]
pub enum TextKind {
    /// It is the whole text.
    Whole,
    /// It is the whole text, whose last line isn't ended.
    Cut,
    /// The text ends with it.
    Ends,
    /// The text has each of these lines, in their order.
    Lines,
    /// It is a report without the registers that are 0.
    Report,
    /// It is words of the simulator, whose run on the same files writes the same text.
    Same,
    /// It is such words, and the text is the same but for the number of cycles at its end.
    SameButCycles,
}

/// A text that is wanted of a run.
#[derive(Drop)]
pub struct Text {
    pub kind: TextKind,
    pub text: String,
}

/// A run, and how it has to end.
#[derive(Drop)]
pub struct Run {
    pub program: Program,
    /// The words of the command, one space apart; `""` stands for the empty one.
    pub words: String,
    pub files: Vec<CaseFile>,
    pub failures: Failures,
    /// Whether each put of the output is to fail in turn, too.
    pub each_put: bool,
    /// Whether each run is to be made with a note that can't be written, too.
    pub silent: bool,
    pub status: u8,
    pub note: String,
    /// What is wanted of the text; it is empty where nothing is.
    pub texts: Vec<Text>,
}

impl Run {
    /// A run of which nothing is known.
    pub(crate) fn new(alloc: Global) -> Run {
        Run {
            program: Program::Simulator,
            words: String::new(alloc),
            files: Vec::new(alloc),
            failures: NOTHING,
            each_put: false,
            silent: false,
            status: 0,
            note: String::new(alloc),
            texts: Vec::new(alloc),
        }
    }
}
