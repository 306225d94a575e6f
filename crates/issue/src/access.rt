//! What a load finds (`docs/machine.md`, "Loads", "Second level"): bytes of older stores, the cache, or misses.
use crate::seen::Seen;
use window_model::{Access, Line, Lines, Request, line_of, upper_line};

impl<'a> Seen<'a> {
    ghost use Rattle.std.specs.Prelude.{◌≡◌, ◌==◌, ◌≤◌, ◌<◌, ◌+◌, ◌^◌, IsTrue};
    ghost use Rattle.std.specs.List.{find};
    ghost use Rattle.window_model.specs.Access.{line_on_miss, line_behind, look_up, looked_up, prefetch_request, prefetches, request, unless_forwarded, unless_lacking};
    ghost use Rattle.issue.specs.State.{IssueInvariant, around_of};

    // A line that takes a miss register: it comes from the second level, where that has it.
    fn request(&self, line: u32) -> Request
        requires stands { IssueInvariant self.now }
        ensures { result ≡ request self.now.desc.now (around_of self.now) line }
    {
        Request {
            line,
            from_memory: !self.second.holds(line),
        }
    }

    // A line that the cache lacks.
    fn join(&self, line: u32) -> Line
        requires stands { IssueInvariant self.now }
        ensures { result ≡ line_on_miss self.now.desc.now (around_of self.now) line
            (find (λ m. m.line == line) self.now.mshrs.now.misses) }
    {
        match self.mshrs.find(line) {
            Some(due) => Line::Joins(line, due),
            None => Line::Takes(self.request(line)),
        }
    }

    // What looking up a line comes to: it hits, joins a miss register, or takes one.
    fn look_up(&self, line: u32) -> Line
        requires stands { IssueInvariant self.now }
        ensures { result ≡ look_up self.now.desc.now (around_of self.now) line }
    {
        if self.tags.holds(line) {
            return Line::Hits(line);
        }
        self.join(line)
    }

    // The lines of so many bytes.
    fn look_up_each(&self, addr: u32, bytes: u32) -> Lines
        requires stands { IssueInvariant self.now }
        requires some { 0 < bytes }
        requires within { addr + bytes ≤ 2 ^ 32 }
        ensures { result ≡ looked_up self.now.desc.now (around_of self.now) addr bytes }
    {
        let lower = self.look_up(line_of(self.desc, addr));
        match upper_line(self.desc, addr, bytes) {
            Some(line) => Lines {
                lower,
                upper: Some(self.look_up(line)),
            },
            None => Lines { lower, upper: None },
        }
    }

    // Whether the line behind these is looked up as well: one of them takes a miss register, it begins in memory, and a
    // register is left.
    fn prefetches(&self, lines: &Lines) -> bool
        requires stands { IssueInvariant self.now }
        ensures value { result ≡ prefetches self.now.desc.now (around_of self.now) lines.now }
        ensures within { IsTrue result → line_behind self.now.desc.now lines.now < 2 ^ 32 }
    {
        let taken = lines.registers();
        self.desc.has_prefetch()
            && taken > 0
            && lines.behind(self.desc) < self.memory_end
            && taken < self.mshrs.free()
    }

    // The line behind an access, if it is prefetched: it takes the register that is left.
    fn prefetched(&self, lines: &Lines) -> Option<Request>
        requires stands { IssueInvariant self.now }
        ensures { result ≡ prefetch_request self.now.desc.now (around_of self.now) lines.now }
    {
        if !self.prefetches(lines) {
            return None;
        }
        self.look_up(lines.behind(self.desc) as u32).request()
    }

    // The lines are looked up, unless there are too few registers for them: then the load waits.
    fn unless_lacking(&self, lines: Lines) -> Access
        requires stands { IssueInvariant self.now }
        ensures { result ≡ unless_lacking self.now.desc.now (around_of self.now) lines }
    {
        if lines.registers() > self.mshrs.free() {
            return Access::Waits;
        }
        Access::Looks(lines, self.prefetched(&lines))
    }

    /// What an access of so many bytes comes to that has no fault. `forwarded` says that older stores have all its
    /// bytes, and that none of them hides its address.
    pub(crate) fn find(&self, forwarded: bool, addr: u32, bytes: u32) -> Access
        requires stands { IssueInvariant self.now }
        requires some { 0 < bytes }
        requires within { addr + bytes ≤ 2 ^ 32 }
        ensures { result ≡ unless_forwarded self.now.desc.now (around_of self.now) forwarded addr bytes }
    {
        if forwarded {
            return Access::Forwards;
        }
        self.unless_lacking(self.look_up_each(addr, bytes))
    }
}
