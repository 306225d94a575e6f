//! Parts of a line: calls of the library that are made here alone, since the proof of each is dear wherever it stands.

/// What stands before a separator, and behind it; all and nothing where there is none.
pub(crate) fn halves<'a>(text: &'a str, separator: &str) -> (&'a str, &'a str) {
    text.split_once(separator).unwrap_or((text, ""))
}

/// What stands behind a beginning, None where the text has another.
pub(crate) fn behind<'a>(text: &'a str, beginning: &str) -> Option<&'a str> {
    text.strip_prefix(beginning)
}

/// Whether a text stands in another.
pub(crate) fn has(text: &str, part: &str) -> bool {
    text.contains(part)
}
