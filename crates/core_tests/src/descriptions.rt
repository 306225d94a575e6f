//! Descriptions by their texts: a text is changed, since a description that is changed would have to be shown to be one
//! anew.
use machine_desc::{Desc, EXAMPLE, SttModel, read_desc};
use std::alloc::Global;
use std::process::Abort;
use std::test::Fail;

/// A part of a text, and what stands in its place.
pub type Change<'a> = (&'a str, &'a str);

/// Four items fetched a cycle, in place of two.
pub const WIDE: Change<'static> = ("fetch_width = 2", "fetch_width = 4");

/// This model, in place of `spectre`. A text that protects nothing says so itself.
pub fn model_of(model: SttModel) -> Change<'static> {
    match model {
        SttModel::Spectre => ("spectre", "spectre"),
        SttModel::Futuristic => ("spectre", "futuristic"),
        SttModel::Off => ("off", "off"),
    }
}

/// The description of this text.
pub fn described(alloc: Global, text: &str) -> Result<Desc, Fail> {
    Ok(read_desc(alloc, text.as_bytes())?)
}

/// The description of the worked examples.
pub fn example(alloc: Global) -> Result<Desc, Fail> {
    described(alloc, EXAMPLE)
}

/// The description of this text with these changes, each of a part that it has.
pub fn changed(
    rt: &impl Abort,
    alloc: Global,
    text: &str,
    changes: &[Change<'_>],
) -> Result<Desc, Fail> {
    let mut changed = String::new(alloc);
    changed.push_str(text)?;
    for (old, new) in changes {
        assert!(rt; changed.as_str().contains(*old));
        changed = changed.as_str().replace(alloc, *old, *new)?;
    }
    described(alloc, changed.as_str())
}
