//! Why a text is no description.
ghost use Rattle.std.specs.Prelude.{◌≡◌};
ghost use Rattle.machine_desc.specs.Table.{subject_text};

use crate::keys::VERSION_NAME;
use crate::{Key, Name, Section};
use std::fmt;
use thiserror::Error;

/// What has the wrong kind.
#[derive(Clone, Copy, Debug, PartialEq, Eq)]
pub enum Subject {
    Version,
    Table(Section),
    Key(Key),
}

impl Subject {
    /// `version`, or the name of the table or key, as `core` or `core.fetch_width`.
    pub fn text(self) -> Name
        ensures { result ≡ subject_text self }
    {
        match self {
            Subject::Version => Name::new(VERSION_NAME.as_bytes()),
            Subject::Table(section) => Name::new(section.name().as_bytes()),
            Subject::Key(key) => key.text(),
        }
    }
}

impl fmt::Display for Subject {
    fn fmt<W: fmt::Write>(&self, f: &mut fmt::Formatter<W>) -> fmt::Result {
        self.text().fmt(f)
    }
}

/// Why a text is no description: each is shown by its number, its key or name, and in words. `docs/formats.md` has the
/// order in which faults are looked for.
#[derive(Debug, Drop, Error)]
pub enum DescFault {
    /// The bytes aren't UTF-8, or aren't a TOML document.
    #[error("K1: the bytes aren't UTF-8, or aren't a TOML document")]
    Syntax,
    /// There is no table, or no key of its table, of this name in this version.
    #[error("K2: there is no table or key of the name {0}")]
    Unknown(Name),
    /// The key isn't there, or its table isn't.
    #[error("K3: {0} isn't there")]
    Missing(Key),
    /// The version isn't a whole number; the table is no table; the key's value isn't a whole number, or isn't a
    /// model's name.
    #[error("K4: {0} is of another kind")]
    Kind(Subject),
    /// The version is one that this program doesn't know: it knows versions 1 and 2.
    #[error("K5: version is {0}, and the versions that are known are 1 and 2")]
    Version(i64),
    /// The number is outside the key's range.
    #[error("K5: {0} is {1}, outside its range")]
    Range(Key, i64),
    /// The number isn't a power of two, zero or a power of two, or a multiple of 16 where the key asks for one; a miss
    /// doesn't take longer than a hit; RAM ends above 2^32; there is one miss register where an access may lie in two
    /// lines; or a line of the second level doesn't come between a hit and a miss.
    #[error("K6: {0} isn't of the shape or size that is asked for")]
    Shape(Key),
    /// There was no memory to read the text.
    #[error("K7: there was no memory to read the text")]
    NoMemory,
}
