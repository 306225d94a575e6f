//! Where an entry with a serial stands in the window.
ghost use Rattle.std.specs.Prelude.{◌≡◌, ◌<◌, ◌≤◌, length, min, take, drop};
ghost use Rattle.std.specs.List.{All};
ghost use Rattle.window_model.specs.Serials.{Rise, below};

use crate::Window;

/// The position of the entry with this serial, or the one at which it would stand: how many entries have a serial below
/// it. Serials rise by one, but for gaps that squashes leave, so it is looked for as far behind the oldest entry as the
/// serial is: where no entry before there was squashed it is there, and else the entries before there are halved.
pub fn position_of<W: Window>(window: &W, serial: u64) -> u32
    requires rise { Rise (W.entries window.now) }
    ensures count { result ≡ length (below serial (W.entries window.now)) }
    ensures older { take result (W.entries window.now) ≡ below serial (W.entries window.now) }
    ensures below { All (λ e. e.serial < serial) (take result (W.entries window.now)) }
    ensures above { All (λ e. serial ≤ e.serial) (drop result (W.entries window.now)) }
    ensures within { result ≤ length (W.entries window.now) }
{
    let mut position = reach(window, serial);
    while position > 0 && window.lend(position - 1).serial >= serial {
        position = halved(window, serial, position - 1);
    }
    position
}

// How many of the oldest entries there are that can have a serial below this one.
fn reach<W: Window>(window: &W, serial: u64) -> u32
    requires rise { Rise (W.entries window.now) }
    ensures older { below serial (W.entries window.now) ≡ below serial (take result (W.entries window.now)) }
    ensures within { result ≤ length (W.entries window.now) }
{
    if window.len() == 0 {
        return 0;
    }
    let ahead = serial.saturating_sub(window.lend(0).serial);
    up_to(ahead, window.len())
}

// The lesser of the two.
fn up_to(ahead: u64, len: u32) -> u32
    ensures { result ≡ min ahead len }
{
    if ahead < len as u64 {
        ahead as u32
    } else {
        len
    }
}

// How many of so many oldest entries there are that can have a serial below this one, by halving. What it looks at
// before its middle is a guess: none that it leaves out has a lower serial, and no more is said of the others.
#[inline(never)]
fn halved<W: Window>(window: &W, serial: u64, entries: u32) -> u32
    requires rise { Rise (W.entries window.now) }
    requires within { entries ≤ length (W.entries window.now) }
    requires older { below serial (W.entries window.now) ≡ below serial (take entries (W.entries window.now)) }
    ensures fewer { result ≤ entries }
    ensures older { below serial (W.entries window.now) ≡ below serial (take result (W.entries window.now)) }
{
    let mut low = 0;
    let mut high = entries;
    while low < high {
        let middle = low + (high - low) / 2;
        if window.lend(middle).serial < serial {
            low = middle + 1;
        } else {
            high = middle;
        }
    }
    high
}
