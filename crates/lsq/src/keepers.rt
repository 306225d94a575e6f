//! Which store kept a load when it last asked.
ghost use Rattle.std.specs.Prelude.{◌≡◌, ◌%◌, None, Some, replicate, slice_get};
ghost use Rattle.lsq.specs.Keepers.{with_keeper};

/// How many groups of loads there are: a load's group is its serial's remainder by this number.
pub const GROUPS: usize = 64;

/// A store that keeps a load for want of its data.
#[derive(Clone, Copy, Debug, PartialEq, Eq)]
pub struct Keeper {
    /// The store's number in the order of renaming.
    pub serial: u64,
    /// The store's number among the stores alone, modulo 2^64: its place in the queue as it was noted, and as many more
    /// as stores had retired from the queue. It is a guess by which the store is looked for at one place first.
    pub number: usize,
}

/// A load that is kept for want of a store's data.
#[derive(Clone, Copy, Debug, PartialEq, Eq)]
pub struct Kept {
    /// The load's number in the order of renaming.
    pub load: u64,
    /// The store that keeps it.
    pub keeper: Keeper,
}

/// For each group of loads, those whose serials are the same modulo 64, the store that kept one of them last, None as
/// long as none was kept. It is a guess by which a load that waits asks one store first: nothing rests on it, and who
/// takes it looks whether the store still keeps the load.
#[derive(Clone, Copy, Debug, PartialEq, Eq)]
pub struct Keepers {
    /// The store for each group.
    pub stores: [Option<Keeper>; GROUPS],
}

impl Keepers {
    /// No guesses, before any load was kept.
    pub fn none() -> Keepers
        ensures { result.stores ≡ replicate 64 None }
    {
        Keepers {
            stores: [None; GROUPS],
        }
    }

    /// The store that kept a load of this one's group last, if one did.
    #[inline(always)]
    pub fn keeper(&self, load: u64) -> Option<Keeper>
        ensures { slice_get self.now.stores (load % 64) ≡ Some result }
    {
        self.stores[(load % GROUPS as u64) as usize]
    }

    /// Notes which store keeps a load, if one does.
    pub fn note(&mut self, kept: Option<Kept>)
        ensures { self.new.stores ≡ with_keeper kept self.old.stores }
    {
        if let Some(kept) = kept {
            self.stores[(kept.load % GROUPS as u64) as usize] = Some(kept.keeper);
        }
    }
}
