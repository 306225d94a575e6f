//! The lines of a file of cases, and the items that they make: programs, descriptions and cases.
use crate::fault::{Fault, at_line};
use crate::parts::{behind, halves, has};
use std::alloc::Global;

/// How far the lines of a block are indented.
const INDENTATION: &str = "    ";

/// A line that says something: its number, counted from 1, whether it is one of a block, and its text without the
/// indentation.
#[derive(Clone, Copy)]
pub struct Line<'a> {
    pub number: usize,
    pub is_inner: bool,
    pub text: &'a str,
}

/// What an item defines.
#[derive(Clone, Copy, PartialEq, Eq)]
pub enum ItemKind {
    Program,
    Description,
    Case,
}

/// A program, a description or a case: its line, its name, and the places of the lines behind it, from the first to
/// before the last, among those of its file.
#[derive(Clone, Copy)]
pub struct Item<'a> {
    pub kind: ItemKind,
    pub line: usize,
    pub name: &'a str,
    pub first: usize,
    pub end: usize,
}

impl<'a> Item<'a> {
    /// Where the lines of a run or a case stand among those of the file.
    pub(crate) fn lines<'b>(&self, lines: &'b [Line<'a>]) -> &'b [Line<'a>] {
        lines.get(self.first..self.end).unwrap_or(&[])
    }
}

// What a line says that is neither empty nor a comment.
fn line_of<'a>(number: usize, text: &'a str) -> Result<Line<'a>, Fault> {
    if text.ends_with(' ') || has(text, "\t") {
        return at_line(number, "no line has a tab, or ends with a space");
    }
    let inner = behind(text, INDENTATION);
    if inner.is_none() && behind(text, " ").is_some() {
        return at_line(number, "a line is indented by four spaces or more, or not");
    }
    Ok(Line {
        number,
        is_inner: inner.is_some(),
        text: inner.unwrap_or(text),
    })
}

/// The lines of a text, without those that are empty or a comment.
pub(crate) fn lines_of<'a>(alloc: Global, text: &'a str) -> Result<Vec<Line<'a>>, Fault> {
    let mut lines = Vec::new(alloc);
    let mut number = 0usize;
    for text in text.lines() {
        number = number.saturating_add(1);
        if !text.is_empty() && behind(text, "#").is_none() {
            lines.push(line_of(number, text)?)?;
        }
    }
    Ok(lines)
}

// What a line begins, if it begins an item.
fn kind_of<'a>(line: Line<'a>) -> Option<(ItemKind, &'a str)> {
    if line.is_inner {
        return None;
    }
    let (word, name) = halves(line.text, " ");
    match word {
        "program" => Some((ItemKind::Program, name)),
        "description" => Some((ItemKind::Description, name)),
        "case" => Some((ItemKind::Case, name)),
        _ => None,
    }
}

// Whether this may be the name of an item.
fn is_name(name: &str) -> bool {
    !name.is_empty()
        && name.bytes().all(|b| b.is_ascii_lowercase() || b.is_ascii_digit() || b == b'_')
}

/// The item of this kind and name, if there is one.
pub(crate) fn named<'a>(items: &[Item<'a>], kind: ItemKind, name: &str) -> Option<Item<'a>> {
    items
        .iter()
        .find(|i| i.kind == kind && i.name == name)
        .copied()
}

// Whether the name may be that of a further item.
fn may_be_named(items: &[Item<'_>], kind: ItemKind, name: &str, line: usize) -> Result<(), Fault> {
    if !is_name(name) {
        return at_line(line, "a name is of lowercase letters, digits and _");
    }
    if named(items, kind, name).is_some() {
        return at_line(line, "the name is taken");
    }
    Ok(())
}

/// The items of a file's lines, in their order.
pub(crate) fn items_of<'a>(alloc: Global, lines: &[Line<'a>]) -> Result<Vec<Item<'a>>, Fault> {
    let mut items: Vec<Item<'a>> = Vec::new(alloc);
    let mut first = 0usize;
    for line in lines {
        first = first.saturating_add(1);
        if let Some((kind, name)) = kind_of(*line) {
            may_be_named(items.as_slice(), kind, name, line.number)?;
            items.push(Item {
                kind,
                line: line.number,
                name,
                first,
                end: first,
            })?;
        } else if let Some(last) = items.last_mut() {
            last.end = first;
        } else {
            return at_line(line.number, "an item comes first, as `case NAME`");
        }
    }
    Ok(items)
}
