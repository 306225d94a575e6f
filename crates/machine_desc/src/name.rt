//! Names as they stand in a description.
ghost use Rattle.std.specs.Prelude.{◌≡◌, ◌≤◌, ◌+◌, length, take, ◌++◌, codes};
ghost use Rattle.machine_desc.specs.Table.{section_name};

use crate::Section;
use arrayvec::ArrayVec;
use std::fmt;

/// The most bytes of an unknown name that are kept, its table and the dot not counted.
pub(crate) const KEPT: usize = 64;

/// The most bytes of a name with its table and the dot.
pub const NAME_MAX: usize = 80;

/// A name: at most its first 64 bytes, behind its table's name and a dot where it stands in a table. It takes no
/// memory.
#[derive(Debug, Drop)]
pub struct Name {
    bytes: ArrayVec<u8, NAME_MAX>,
}

impl std::marker::Model for Name {
    ghost use Rattle.std.specs.Prelude.{List, ℕ};

    ghost Value = { List ℕ };

    ghost view = { λ n. n.bytes.items };
}

// Appends these bytes to those of a name.
fn add(to: &mut ArrayVec<u8, NAME_MAX>, bytes: &[u8])
    requires { length to.old.items + length bytes.now ≤ 80 }
    ensures { to.new.items ≡ to.old.items ++ bytes.now }
{
    for byte in bytes {
        to.push(*byte);
    }
}

// The first n bytes, or all where there are fewer.
fn first_of(bytes: &[u8], n: usize) -> &[u8]
    ensures first { result.now ≡ take n bytes.now }
    ensures few { length result.now ≤ n }
{
    if bytes.len() <= n { bytes } else { &bytes[..n] }
}

impl Name {
    /// The first 64 bytes of a name.
    pub fn new(name: &[u8]) -> Name
        ensures { result ≡ take 64 name.now }
    {
        let mut bytes = ArrayVec::new();
        add(&mut bytes, first_of(name, KEPT));
        Name { bytes }
    }

    /// The first 64 bytes of a name that stands in a table, behind the table's name and a dot.
    pub fn in_section(section: Section, name: &[u8]) -> Name
        ensures { result ≡ section_name section ++ codes "." ++ take 64 name.now }
    {
        let mut bytes = ArrayVec::new();
        add(&mut bytes, section.name().as_bytes());
        add(&mut bytes, b".");
        add(&mut bytes, first_of(name, KEPT));
        Name { bytes }
    }

    /// The bytes. A cut name may end within a character.
    pub fn as_slice(&self) -> &[u8]
        ensures value { result.now ≡ self.now }
        ensures few { length result.now ≤ 80 }
    {
        self.bytes.as_slice()
    }
}

/// The name, with a question mark for each byte that is no printable character of ASCII.
impl fmt::Display for Name {
    fn fmt<W: fmt::Write>(&self, f: &mut fmt::Formatter<W>) -> fmt::Result {
        for byte in self.as_slice() {
            let shown = if 32 <= *byte && *byte < 127 {
                *byte
            } else {
                b'?'
            };
            write!(f, "{}", shown as char)?;
        }
        Ok(())
    }
}
