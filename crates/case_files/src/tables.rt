//! The tables of a case: columns by name, and what stands for them in each row. A case is run for each row, or where it
//! has several tables for each row of one with each of the others.
use crate::fault::{Fault, at_line};
use crate::lines::Line;
use crate::parts::{behind, has};
use std::alloc::Global;

/// The name of a column of remarks, which no line names.
const REMARK: &str = "#";

/// A table: its line, its columns, and the places of its rows, from the first to before the last, among a case's lines.
#[derive(Clone, Copy)]
pub(crate) struct Table<'a> {
    line: usize,
    columns: &'a str,
    first: usize,
    end: usize,
}

/// The tables among a case's lines, and the other lines.
#[derive(Drop)]
pub(crate) struct Parted<'a> {
    pub(crate) tables: Vec<Table<'a>>,
    pub(crate) others: Vec<Line<'a>>,
}

/// Parts a case's lines.
pub(crate) fn part_lines<'a>(alloc: Global, lines: &[Line<'a>]) -> Result<Parted<'a>, Fault> {
    let mut tables: Vec<Table<'a>> = Vec::new(alloc);
    let mut others = Vec::new(alloc);
    let mut is_table = false;
    let mut first = 0usize;
    for line in lines {
        first = first.saturating_add(1);
        is_table = is_table && line.is_inner;
        match (behind(line.text, "for "), tables.last_mut()) {
            (Some(columns), _) if !line.is_inner => {
                tables.push(Table {
                    line: line.number,
                    columns,
                    first,
                    end: first,
                })?;
                is_table = true;
            }
            (_, Some(table)) if is_table => table.end = first,
            _ => others.push(*line)?,
        }
    }
    Ok(Parted { tables, others })
}

impl<'a> Table<'a> {
    // Where a table's rows stand among the lines of a case.
    fn rows<'b>(&self, lines: &'b [Line<'a>]) -> &'b [Line<'a>] {
        lines.get(self.first..self.end).unwrap_or(&[])
    }

    // What is wrong with its rows, if anything is: there is one, and each has a cell for each column.
    fn has_rows(&self, lines: &[Line<'a>]) -> Result<(), Fault> {
        let columns = self.columns.split('|').count();
        if self.rows(lines).is_empty() {
            return at_line(self.line, "a table has a row");
        }
        for row in self.rows(lines) {
            if row.text.split('|').count() != columns {
                return at_line(row.number, "a row has a cell for each column");
            }
        }
        Ok(())
    }

    // The fault of a column that none of these lines names.
    fn is_used(&self, alloc: Global, others: &[Line<'a>]) -> Result<(), Fault> {
        for column in self.columns.split('|') {
            let column = column.trim();
            let name = format!(in alloc; "{{{column}}}")?;
            if column != REMARK && !others.iter().any(|l| has(l.text, name.as_str())) {
                return at_line(self.line, "nothing names one of the columns");
            }
        }
        Ok(())
    }
}

/// How many runs these tables ask for.
pub(crate) fn runs_by<'a>(
    alloc: Global,
    parted: &Parted<'a>,
    lines: &[Line<'a>],
) -> Result<usize, Fault> {
    let mut runs = 1usize;
    for table in &parted.tables {
        table.has_rows(lines)?;
        table.is_used(alloc, parted.others.as_slice())?;
        runs = runs.saturating_mul(table.rows(lines).len());
    }
    Ok(runs)
}

// The text with what stands in a row's cells in the place of the columns' names in braces.
fn with_row(alloc: Global, text: &mut String, columns: &str, cells: &str) -> Result<(), Fault> {
    for (column, cell) in columns.split('|').zip(cells.split('|')) {
        let name = format!(in alloc; "{{{}}}", column.trim())?;
        let filled = text.as_str().replace(alloc, name.as_str(), cell.trim())?;
        *text = filled;
    }
    Ok(())
}

/// The text of a line in the run of this number, counted from 0, with what stands there for each column.
pub(crate) fn filled<'a>(
    alloc: Global,
    line: Line<'a>,
    tables: &[Table<'a>],
    lines: &[Line<'a>],
    run: usize,
) -> Result<String, Fault> {
    let mut text = String::from_str(alloc, line.text)?;
    let mut rest = run;
    for table in tables {
        let rows = table.rows(lines);
        let place = rest.checked_rem(rows.len()).unwrap_or(0);
        rest = rest.checked_div(rows.len()).unwrap_or(0);
        if let Some(row) = rows.get(place) {
            with_row(alloc, &mut text, table.columns, row.text)?;
        }
    }
    if has(text.as_str(), "{") {
        return at_line(line.number, "no column has this name");
    }
    Ok(text)
}
