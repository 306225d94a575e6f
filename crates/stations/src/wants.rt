//! What an entry, or a part of it, needs before it may issue.

/// What an entry that waits needs before it, or a part of it, may issue.
#[derive(Clone, Copy, Debug, PartialEq, Eq)]
pub enum Wants {
    /// Every source: the entry issues as a whole.
    Whole,
    /// One of the sources, whichever: the entry issues in two parts, and neither has issued.
    Either,
    /// The first source: the data part has issued.
    Address,
    /// The second source: the address part has issued.
    Data,
}

/// A part of an entry that issues in two.
#[derive(Clone, Copy, Debug, PartialEq, Eq)]
pub enum Part {
    /// The address part, which needs the first source.
    Address,
    /// The data part, which needs the second source.
    Data,
}
