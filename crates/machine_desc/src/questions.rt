//! What a description asks of the machine, as questions.
ghost use Rattle.std.specs.Prelude.{◌≡◌};
ghost use Rattle.machine_desc.specs.Questions.{stores_in_one, loads_pass, takes_any_address, has_prefetch};

use crate::Desc;

impl Desc {
    /// Whether a store's address and its data issue together: in version 1 alone (`docs/machine.md`, "Issue").
    pub fn stores_in_one(&self) -> bool
        ensures { result ≡ stores_in_one self.now }
    {
        self.version == 1
    }

    /// Whether loads may pass stores of unknown address: there are bits of dependence (`docs/machine.md`, "Clear").
    pub fn loads_pass(&self) -> bool
        ensures { result ≡ loads_pass self.now }
    {
        self.predictor_depend > 0
    }

    /// Whether a load or store may have any address, and so lie in two lines (`docs/machine.md`, "State").
    pub fn takes_any_address(&self) -> bool
        ensures { result ≡ takes_any_address self.now }
    {
        self.ram_misaligned == 1
    }

    /// Whether the line behind a load's is fetched with it, where the load takes a miss register and another one is
    /// left (`docs/machine.md`, "Prefetch").
    pub fn has_prefetch(&self) -> bool
        ensures { result ≡ has_prefetch self.now }
    {
        self.cache_prefetch == 1
    }
}
