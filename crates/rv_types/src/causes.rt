//! The causes of a trap by their names.
ghost use Rattle.std.specs.Prelude.{◌≡◌};

use crate::Cause;

impl Cause {
    ghost use Rattle.rv_types.specs.Causes.{jump_misaligned, outside_code, illegal, breakpoint, load_misaligned, load_outside, store_misaligned, store_outside};

    /// Cause 0: a jump or a taken branch to an address that is no multiple of 4.
    pub fn jump_misaligned() -> Cause
        ensures { result ≡ jump_misaligned }
    {
        Cause { number: 0 }
    }

    /// Cause 1: a fetch outside code.
    pub fn outside_code() -> Cause
        ensures { result ≡ outside_code }
    {
        Cause { number: 1 }
    }

    /// Cause 2: an instruction that is illegal.
    pub fn illegal() -> Cause
        ensures { result ≡ illegal }
    {
        Cause { number: 2 }
    }

    /// Cause 3: an EBREAK was executed.
    pub fn breakpoint() -> Cause
        ensures { result ≡ breakpoint }
    {
        Cause { number: 3 }
    }

    /// Cause 4: a load from an address that is no multiple of its size.
    pub fn load_misaligned() -> Cause
        ensures { result ≡ load_misaligned }
    {
        Cause { number: 4 }
    }

    /// Cause 5: a load of a byte outside memory.
    pub fn load_outside() -> Cause
        ensures { result ≡ load_outside }
    {
        Cause { number: 5 }
    }

    /// Cause 6: a store to an address that is no multiple of its size.
    pub fn store_misaligned() -> Cause
        ensures { result ≡ store_misaligned }
    {
        Cause { number: 6 }
    }

    /// Cause 7: a store of a byte outside memory.
    pub fn store_outside() -> Cause
        ensures { result ≡ store_outside }
    {
        Cause { number: 7 }
    }
}
