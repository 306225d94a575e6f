//! Laws on descriptions, each on a function that does nothing.
ghost use Rattle.std.specs.Prelude.{◌≡◌, ℕ, List, Ok};
ghost use Rattle.machine_desc.specs.declared.Desc.{Desc};
ghost use Rattle.machine_desc.specs.declared.example.TheConstants.{EXAMPLE};
ghost use Rattle.machine_desc.specs.Example.{example};
ghost use Rattle.machine_desc.specs.Ranges.{IsDesc};
ghost use Rattle.machine_desc.specs.Description.{Contents, contents, description_of, Describes};

use crate::Desc;

/// Whatever is asked of a description holds of every value of the type.
#[tactic(auto, using(crate::proofs::EveryDesc::every_desc))]
pub fn every_desc(desc: &Desc)
    ensures { IsDesc desc.now }
{}

/// A text has one description at most.
pub fn one_description()
    ensures { (bytes : List ℕ) (d e : Desc) → Describes bytes d → Describes bytes e → d ≡ e }
{}

/// A text without a fault has a description.
pub fn some_description()
    ensures { (bytes : List ℕ) (c : Contents) → description_of bytes ≡ Ok c → (d : Desc) × (contents d ≡ c) }
{}

/// The text of the example describes the example.
#[tactic(auto, using(crate::proofs::Described::described))]
pub fn example_described()
    ensures { Describes EXAMPLE.now example }
{}
