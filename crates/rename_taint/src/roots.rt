//! Youngest roots of what instructions read and write (`docs/machine.md`, "Writers and roots").
ghost use Rattle.std.specs.Prelude.{◌≡◌, map, Option};
ghost use Rattle.std.specs.Option.{option_map};
ghost use Rattle.rv_types.specs.Regs.{reads_of, two};
ghost use Rattle.rename_taint.specs.Writes.{root_at, later, root_written};

use crate::RenameTaint;
use rv_types::{Instr, Kind, Reg, reads_of};

/// The youngest roots of the instruction's first and second source. Kept for who looks at a table from outside.
pub fn roots_of<R: RenameTaint>(table: &R, instr: &Instr) -> [Option<u64>; 2]
    ensures { result ≡ map (root_at (R.writes table.now)) (two (reads_of instr.now)) }
{
    let [first, second] = reads_of(instr);
    [root_at(table, first), root_at(table, second)]
}

/// The youngest root of a source, None where it has none or there is no source.
pub fn root_at<R: RenameTaint>(table: &R, source: Option<Reg>) -> Option<u64>
    ensures { result ≡ root_at (R.writes table.now) (option_map (λ r. r.number) source) }
{
    match source {
        Some(register) => table.root(register),
        None => None,
    }
}

/// The youngest root of what an entry of this kind writes, by those of its sources: a load is its own root, and
/// anything else has the roots of all its sources.
pub fn root_written(kind: Kind, serial: u64, roots: [Option<u64>; 2]) -> Option<u64>
    ensures { result ≡ root_written kind serial roots }
{
    let [first, second] = roots;
    match kind {
        Kind::Load => Some(serial),
        _ => later(first, second),
    }
}

/// The later of two serials, None where there is neither: of two roots the younger.
pub fn later(first: Option<u64>, second: Option<u64>) -> Option<u64>
    ensures { result ≡ later first second }
{
    match (first, second) {
        (Some(one), Some(other)) => Some(one.max(other)),
        (Some(_), None) => first,
        (None, _) => second,
    }
}
