//! What a run is made of: a machine description and an image in its memory, read from the files that it names; the
//! refusal of each that isn't accepted, with its status and its line; and a program over its words as they were read.
//!
//! Rules: `specs/Input.antt`, what is read of which files and why it is refused; `Refused.antt`, the statuses;
//! `Note.antt`, the lines; `Told.antt`, what files and the sink tell; `docs/formats.md`, "Statuses" and "Notes".
//!
//! Promises: what is read is what the files named may hold, each loaded before the next is read; each refusal has its
//! cause, its status and its line; a program over its words as they were read ends as it does over them, or is refused
//! for the reason why they weren't.
//!
//! Clauses: `over_read`, `read_description`, `read_named`, `read_image`, `read_described`, `status_of`, `note_line`.
#![tactic(auto)]

mod described;
mod description;
mod note;
mod program;
mod reading;
mod refusal;
mod region;
mod sources;

pub use described::{Described, read_described};
pub use description::{read_description, read_named};
pub use note::{note_line, refuse};
pub use program::{Program, over_read};
pub use refusal::{Refusal, Which, status_of};
pub use sources::{ImageSource, read_image};
