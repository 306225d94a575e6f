//! What the access of a load comes to (`docs/machine.md`, "Loads", "Second level").
use crate::Look;
use machine_desc::Desc;
use rv_types::Cause;

/// A line that takes a miss register.
#[derive(Clone, Copy, Debug, PartialEq, Eq)]
pub struct Request {
    /// The first address of the line.
    pub line: u32,
    /// Whether the line comes from memory, and not from the second level.
    pub from_memory: bool,
}

impl Request {
    ghost use Rattle.std.specs.Prelude.{◌≡◌, ◌<◌, ◌^◌};
    ghost use Rattle.window_model.specs.Access.{register, source_of};

    /// Where the line comes from: the second level, or memory.
    pub fn source(&self) -> Look
        ensures { result ≡ source_of self.now }
    {
        if self.from_memory {
            return Look::Miss;
        }
        Look::Second
    }

    /// The cycle in which the line comes, if it takes a miss register in this cycle.
    pub fn due(&self, cycle: u64, desc: &Desc) -> u64
        requires soon { cycle < 2 ^ 32 }
        ensures { result ≡ (register desc.now cycle self.now).due }
    {
        if self.from_memory {
            return cycle + desc.cache_miss_latency as u64;
        }
        cycle + desc.cache_second_latency as u64
    }
}

/// What looking up one line comes to. A line is named by its first address.
#[derive(Clone, Copy, Debug, PartialEq, Eq)]
pub enum Line {
    /// The cache has the line.
    Hits(u32),
    /// A miss register waits for the line, until this cycle.
    Joins(u32, u64),
    /// The line takes a miss register.
    Takes(Request),
}

impl Line {
    ghost use Rattle.std.specs.Prelude.{◌≡◌, ◌≤◌};
    ghost use Rattle.std.specs.Option.{option_len};
    ghost use Rattle.window_model.specs.Access.{line_at, look_at, request_by};

    /// The line, if it takes a miss register.
    pub fn request(&self) -> Option<Request>
        ensures { result ≡ request_by self.now }
    {
        match *self {
            Line::Takes(request) => Some(request),
            _ => None,
        }
    }

    // How many miss registers it takes.
    fn registers(&self) -> u32
        ensures number { result ≡ option_len (request_by self.now) }
        ensures few { result ≤ 1 }
    {
        match self {
            Line::Takes(_) => 1,
            _ => 0,
        }
    }

    /// The first address of the line that was looked up.
    pub fn line(&self) -> u32
        ensures { result ≡ line_at self.now }
    {
        match *self {
            Line::Hits(line) => line,
            Line::Joins(line, _) => line,
            Line::Takes(request) => request.line,
        }
    }

    /// Where the line was found, as the trace tells it.
    pub fn look(&self) -> Look
        ensures { result ≡ look_at self.now }
    {
        match self {
            Line::Hits(_) => Look::Hit,
            Line::Joins(_, _) => Look::Join,
            Line::Takes(request) => request.source(),
        }
    }
}

/// What looking up the lines of an access comes to.
#[derive(Clone, Copy, Debug, PartialEq, Eq)]
pub struct Lines {
    /// The line of the access's first byte.
    pub lower: Line,
    /// The line of the access's last byte, where it is another line.
    pub upper: Option<Line>,
}

impl Lines {
    ghost use Rattle.std.specs.Prelude.{◌≡◌, ◌≤◌, length};
    ghost use Rattle.std.specs.Option.{option_and_then};
    ghost use Rattle.window_model.specs.Access.{line_behind, request_by, requests};

    /// How many miss registers they take.
    pub fn registers(&self) -> u32
        ensures number { result ≡ length (requests self.now) }
        ensures few { result ≤ 2 }
    {
        match &self.upper {
            Some(upper) => self.lower.registers() + upper.registers(),
            None => self.lower.registers(),
        }
    }

    /// The upper line, if it takes a miss register.
    pub fn upper_request(&self) -> Option<Request>
        ensures { result ≡ option_and_then request_by self.now.upper }
    {
        match &self.upper {
            Some(upper) => upper.request(),
            None => None,
        }
    }

    /// The line behind the last of them, which may lie past the address 2^32 - 1.
    pub fn behind(&self, desc: &Desc) -> u64
        ensures { result ≡ line_behind desc.now self.now }
    {
        let last = match &self.upper {
            Some(upper) => upper.line(),
            None => self.lower.line(),
        };
        last as u64 + desc.cache_line as u64
    }
}

/// What the access of a load comes to.
#[derive(Clone, Copy, Debug, PartialEq, Eq)]
pub enum Access {
    /// The load has a fault, and reads nothing.
    Faults(Cause),
    /// Older stores have all bytes of the load.
    Forwards,
    /// The load's lines are looked up, and this line, if any, is prefetched with them.
    Looks(Lines, Option<Request>),
    /// Too few miss registers are free for the load's lines.
    Waits,
}
