//! A file of cases, and the runs of each of its cases.
ghost use Rattle.std.specs.Prelude.{◌<◌, IfOk, vec_len};

use crate::definitions::{is_described, words_of};
use crate::fault::{Fault, at_line};
use crate::fields::{SoFar, finish, read_field, read_inner};
use crate::lines::{Item, ItemKind, Line, items_of, lines_of};
use crate::run::Run;
use crate::tables::{Parted, filled, part_lines, runs_by};
use std::alloc::Global;

/// A file: its lines, its items, and the cases among them, at least one.
#[derive(Drop)]
pub struct Cases<'a> {
    pub(crate) lines: Vec<Line<'a>>,
    pub(crate) items: Vec<Item<'a>>,
    pub cases: Vec<Item<'a>>,
}

// What is wrong with the lines of an item that cases name, if anything is.
fn is_defined(alloc: Global, item: &Item<'_>, lines: &[Line<'_>]) -> Result<(), Fault> {
    match item.kind {
        ItemKind::Program => {
            let _words = words_of(alloc, lines)?;
            Ok(())
        }
        ItemKind::Description => is_described(item.name, item.line, lines),
        ItemKind::Case => Ok(()),
    }
}

// The cases among the items, of which each other one is as it has to be.
fn cases_among<'a>(
    alloc: Global,
    items: &[Item<'a>],
    lines: &[Line<'a>],
) -> Result<Vec<Item<'a>>, Fault> {
    let mut cases = Vec::new(alloc);
    for item in items {
        is_defined(alloc, item, item.lines(lines))?;
        if item.kind == ItemKind::Case {
            cases.push(*item)?;
        }
    }
    Ok(cases)
}

/// The cases of a file's text. Errors: `AtLine` of a line that can't be, `Empty` where there is no case, `Memory`.
pub fn read_cases<'a>(alloc: Global, text: &'a str) -> Result<Cases<'a>, Fault>
    ensures { IfOk result (λ read. 0 < vec_len read.cases) }
{
    let lines = lines_of(alloc, text)?;
    let items = items_of(alloc, lines.as_slice())?;
    let cases = cases_among(alloc, items.as_slice(), lines.as_slice())?;
    if cases.is_empty() {
        return Err(Fault::Empty);
    }
    Ok(Cases {
        lines,
        items,
        cases,
    })
}

// The run of this number that a case asks for.
fn run_of<'a>(
    alloc: Global,
    cases: &Cases<'a>,
    case: &Item<'a>,
    parted: &Parted<'a>,
    number: usize,
) -> Result<Run, Fault> {
    let mut run = Run::new(alloc);
    let mut so_far = SoFar::new();
    let lines = case.lines(cases.lines.as_slice());
    for line in &parted.others {
        let text = filled(alloc, *line, parted.tables.as_slice(), lines, number)?;
        if line.is_inner {
            read_inner(&mut run.texts, &so_far, text.as_str(), line.number)?;
        } else {
            read_field(
                alloc,
                cases,
                &mut run,
                &mut so_far,
                text.as_str(),
                line.number,
            )?;
        }
    }
    finish(alloc, &mut run, &so_far, case.line)?;
    Ok(run)
}

/// The runs that a case asks for, at least one. Errors: `AtLine` of a line that can't be, `Memory`.
pub fn runs_of<'a>(alloc: Global, cases: &Cases<'a>, case: &Item<'a>) -> Result<Vec<Run>, Fault>
    ensures { IfOk result (λ runs. 0 < vec_len runs) }
{
    let lines = case.lines(cases.lines.as_slice());
    let parted = part_lines(alloc, lines)?;
    let mut runs = Vec::new(alloc);
    for number in 0..runs_by(alloc, &parted, lines)? {
        runs.push(run_of(alloc, cases, case, &parted, number)?)?;
    }
    if runs.is_empty() {
        return at_line(case.line, "a case asks for a run");
    }
    Ok(runs)
}
