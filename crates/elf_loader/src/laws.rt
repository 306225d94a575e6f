//! Laws on images, each on a function that does nothing.
ghost use Rattle.std.specs.Prelude.{◌≡◌, ◌%◌, ℕ, Bool, List, Ok, Some};
ghost use Rattle.elf_loader.specs.Image.{ImageText, image_of};

/// An image's instructions stand at multiples of 4.
#[tactic(auto, using(crate::proofs::Images::at_words))]
pub fn instructions_stand_at_words()
    ensures { (file : List ℕ) (base size : ℕ) (misaligned : Bool) (image : ImageText)
        → image_of file base size misaligned ≡ Ok image
        → (pc word : ℕ) → image.code pc ≡ Some word → pc % 4 ≡ 0 }
{}
