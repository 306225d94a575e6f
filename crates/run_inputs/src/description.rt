//! The description of a run, if one is named.
ghost use Rattle.std.specs.Prelude.{Option, Some, Result, MatchResult};
ghost use Rattle.std.specs.Option.{option_map};
ghost use Rattle.machine_desc.specs.Description.{Describes};
ghost use Rattle.tool_io.specs.Outside.{SameContents, SameCounts};
ghost use Rattle.run_inputs.specs.Input.{MayGive, HasDesc, DescriptionRefused};
ghost use Rattle.run_inputs.specs.inner.Input.{TextRefused, ReadsDesc};

use crate::reading::{DESCRIPTION_MAX, Unread, read_file};
use crate::refusal::Refusal;
use machine_desc::{Desc, DescFault, read_desc};
use std::alloc::Global;
use tool_io::Files;

// The description of a text.
fn desc_in(alloc: Global, text: &[u8]) -> Result<Desc, Refusal>
    ensures { MatchResult result (Describes text.now) (λ e. TextRefused text.now e) }
{
    match read_desc(alloc, text) {
        Ok(desc) => Ok(desc),
        Err(DescFault::NoMemory) => Err(Refusal::Memory),
        Err(fault) => Err(Refusal::Description(fault)),
    }
}

/// The description of this name.
pub fn read_description<F: Files>(alloc: Global, name: &str, files: &mut F) -> Result<Desc, Refusal>
    ensures answer { MatchResult result
        (λ d. HasDesc (MayGive (F.shelf files.old)) (Some name.now) (Some d)
        × SameCounts (F.shelf files.old) (F.shelf files.new))
        (λ e. DescriptionRefused name.now (F.shelf files.old) (F.shelf files.new) e) }
    ensures stays { SameContents (F.shelf files.old) (F.shelf files.new) }
{
    let text = match read_file(alloc, name, DESCRIPTION_MAX, files) {
        Ok(text) => text,
        Err(Unread::Failed) => return Err(Refusal::ReadDescription),
        Err(Unread::TooLong) => return Err(Refusal::DescriptionTooLong),
        Err(Unread::NoMemory) => return Err(Refusal::Memory),
    };
    match desc_in(alloc, text.as_slice()) {
        Ok(desc) => Ok(desc),
        Err(refusal) => Err(refusal),
    }
}

/// The description of a run, if one is named.
pub fn read_named<F: Files>(
    alloc: Global,
    description: Option<&str>,
    files: &mut F,
) -> Result<Option<Desc>, Refusal>
    ensures answer { ReadsDesc (option_map (λ t. t.now) description.entry)
        (F.shelf files.old) (F.shelf files.new) result }
    ensures stays { SameContents (F.shelf files.old) (F.shelf files.new) }
{
    let Some(name) = description else {
        return Ok(None);
    };
    match read_description(alloc, name, files) {
        Ok(desc) => Ok(Some(desc)),
        Err(refusal) => Err(refusal),
    }
}
