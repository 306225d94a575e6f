//! Lines of memory (`docs/machine.md`, "State").
ghost use Rattle.std.specs.Prelude.{◌≡◌, ◌+◌, ◌^◌, ◌<◌, ◌≤◌};
ghost use Rattle.window_model.specs.State.{line_of, lines_of, upper_line};

use arrayvec::ArrayVec;
use machine_desc::Desc;

/// The first address of an address's line.
pub fn line_of(desc: &Desc, addr: u32) -> u32
    ensures { result ≡ line_of desc.now addr }
{
    addr / desc.cache_line * desc.cache_line
}

/// The line of the last byte of an access of so many bytes, where it is another than that of its first. It asks for at
/// least one byte, and that none lies past the address 2^32 - 1.
pub fn upper_line(desc: &Desc, addr: u32, bytes: u32) -> Option<u32>
    requires some { 0 < bytes }
    requires within { addr + bytes ≤ 2 ^ 32 }
    ensures { result ≡ upper_line desc.now addr bytes }
{
    let low = line_of(desc, addr);
    let high = line_of(desc, addr + (bytes - 1));
    if high != low {
        return Some(high);
    }
    None
}

/// The lines of an access of so many bytes: one, or two, the lower first. It asks for at least one byte, and that none
/// lies past the address 2^32 - 1.
pub fn lines_of(desc: &Desc, addr: u32, bytes: u32) -> ArrayVec<u32, 2>
    requires some { 0 < bytes }
    requires within { addr + bytes ≤ 2 ^ 32 }
    ensures { result.items ≡ lines_of desc.now addr bytes }
{
    let mut lines = ArrayVec::new();
    lines.push(line_of(desc, addr));
    if let Some(upper) = upper_line(desc, addr, bytes) {
        lines.push(upper);
    }
    lines
}
