//! Why a program that reads a description and images writes no text, or not all of it, and the status of each refusal.
ghost use Rattle.std.specs.Prelude.{◌≡◌};
ghost use Rattle.run_inputs.specs.Refused.{words_refused, status_of};
ghost use Rattle.run_inputs.specs.declared.refusal.Refusal.TheVariants.{Write, Memory};

use elf_loader::ElfFault;
use machine_desc::DescFault;
use rv_types::NoMemory;
use thiserror::Error;
use tool_io::Failed;
use tool_words::Refused;

/// Which of a command's images.
#[derive(Clone, Copy, Debug, PartialEq, Eq)]
pub enum Which {
    /// The first image, or the one that there is.
    First,
    /// The second image of two.
    Second,
}

/// Why there is no text, or not all of it.
#[derive(Debug, Drop, Error)]
pub enum Refusal {
    /// The words are no command.
    #[error("the words are no command")]
    Words,
    /// The description couldn't be read.
    #[error("the description couldn't be read")]
    ReadDescription,
    /// The description has more than 65,536 bytes.
    #[error("the description has more than 65,536 bytes")]
    DescriptionTooLong,
    /// The text is no description.
    #[error("the description isn't accepted: {0}")]
    Description(DescFault),
    /// An image couldn't be read.
    #[error("an image couldn't be read")]
    ReadImage(Which),
    /// An image has more than 33,554,432 bytes.
    #[error("an image has more than 33,554,432 bytes")]
    ImageTooLong(Which),
    /// A file is no image.
    #[error("an image isn't accepted: {1}")]
    Image(Which, ElfFault),
    /// The text couldn't be written whole.
    #[error("the output couldn't be written whole")]
    Write,
    /// There was no memory.
    #[error("there was no memory")]
    Memory,
}

impl From<Refused> for Refusal {
    ghost from_gives = { λ refused r. r ≡ words_refused refused };

    fn from(refused: Refused) -> Refusal {
        match refused {
            Refused::Words => Refusal::Words,
            Refused::Memory => Refusal::Memory,
        }
    }
}

impl From<NoMemory> for Refusal {
    ghost from_gives = { λ _ r. r ≡ Memory };

    fn from(_wanting: NoMemory) -> Refusal {
        Refusal::Memory
    }
}

impl From<Failed> for Refusal {
    ghost from_gives = { λ _ r. r ≡ Write };

    fn from(_failed: Failed) -> Refusal {
        Refusal::Write
    }
}

/// The status of a refusal (`docs/formats.md`, "Statuses").
pub fn status_of(refusal: &Refusal) -> u8
    ensures { result ≡ status_of refusal.now }
{
    match refusal {
        Refusal::Words => 2,
        Refusal::DescriptionTooLong | Refusal::Description(_) => 4,
        Refusal::ImageTooLong(_) | Refusal::Image(_, _) => 5,
        Refusal::ReadDescription | Refusal::ReadImage(_) => 6,
        Refusal::Write => 7,
        Refusal::Memory => 8,
    }
}
