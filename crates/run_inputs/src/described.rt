//! A description, and then an image in its memory.
ghost use Rattle.std.specs.Prelude.{◌∷◌, [], Some, MatchResult, IfOk};
ghost use Rattle.tool_io.specs.Outside.{SameContents};
ghost use Rattle.run_inputs.specs.Loaded.{Fits, image_text};
ghost use Rattle.run_inputs.specs.Input.{IsRead, Refuses};
ghost use Rattle.run_inputs.specs.inner.Input.{image_from};

use crate::description::read_description;
use crate::refusal::{Refusal, Which};
use crate::sources::{ImageSource, read_image};
use elf_loader::Image;
use machine_desc::Desc;
use std::alloc::Global;
use tool_io::Files;

/// A description, and an image in its memory.
#[derive(Drop)]
pub struct Described {
    pub desc: Desc,
    pub image: Image,
}

/// Reads a description and then the one image of a run under it. Nothing of the image is read where the description is
/// refused.
pub fn read_described<F: Files>(
    alloc: Global,
    description: &str,
    source: ImageSource<'_>,
    files: &mut F,
) -> Result<Described, Refusal>
    ensures answer { MatchResult result
        (λ i. IsRead (F.shelf files.old) (F.shelf files.new) (Some description.now) (image_from source.entry ∷ [])
        (Some i.desc) (image_text i.image ∷ []))
        (λ e. Refuses (Some description.now) (image_from source.entry ∷ []) (F.shelf files.old) (F.shelf files.new) e) }
    ensures fits { IfOk result (λ i. Fits i.desc i.image.ram) }
    ensures stays { SameContents (F.shelf files.old) (F.shelf files.new) }
{
    let desc = match read_description(alloc, description, files) {
        Ok(desc) => desc,
        Err(refusal) => return Err(refusal),
    };
    let image = read_image(alloc, source, Which::First, Some(desc), files)?;
    Ok(Described { desc, image })
}
