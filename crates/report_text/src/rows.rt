//! The rows of memory that a run changed (`docs/formats.md`, "The report").
ghost use Rattle.std.specs.Prelude.{◌≡◌, ◌<◌, ◌≤◌, ◌+◌, ◌*◌, ℕ, true, length};
ghost use Rattle.tool_io.specs.Outside.{Writes};
ghost use Rattle.report_text.specs.Report.{row_of, row_line, row_text, row_lines};

use byte_ram::Ram;
use line_text::Line;
use tool_io::{Failed, Sink};

/// The bytes of a row.
const ROW_BYTES: usize = 16;

/// The rows of a block. Most blocks are as they were, and are passed by one comparison.
const BLOCK: usize = 256;

fn row_of(bytes: &[u8], row: usize) -> &[u8]
    requires { 16 * row + 16 ≤ length bytes.now }
    ensures row { result.now ≡ row_of bytes.now row }
    ensures len { length result.now ≡ 16 }
{
    &bytes[ROW_BYTES * row..ROW_BYTES * row + ROW_BYTES]
}

#[tactic(auto, unfolding(crate::specs::Report::row_line))]
fn fill_row(line: &mut Line, addr: u32, bytes: &[u8])
    requires { length bytes.now ≡ 16 }
    ensures { line.new ≡ row_line addr bytes.now }
{
    line.clear();
    line.add(b"mem ");
    line.add_hex8(addr);
    line.add(b" ");
    line.add_hex_bytes(bytes);
    line.add(b"\n");
}

fn write_row<S: Sink>(
    before: &Ram,
    after: &Ram,
    row: usize,
    line: &mut Line,
    out: &mut S,
) -> Result<(), Failed>
    requires size { length before.now.bytes ≡ length after.now.bytes }
    requires inside { 16 * row + 16 ≤ length after.now.bytes }
    ensures { Writes (row_text before.now after.now row) (S.told out.old) (S.told out.new) result }
{
    let bytes = row_of(after.bytes(), row);
    if row_of(before.bytes(), row) == bytes {
        return Ok(());
    }
    let addr = after.base() + (ROW_BYTES * row) as u32;
    fill_row(line, addr, bytes);
    out.put(line.as_slice())
}

// Whether a block begins at a row in which both memories hold the same bytes: so its rows needn't be looked at.
fn is_same_block(before: &[u8], after: &[u8], row: usize) -> bool
    requires size { length before.now ≡ length after.now }
    requires inside { 16 * row ≤ length after.now }
    ensures within { result ≡ true → 16 * (row + 256) ≤ length after.now }
    ensures same { result ≡ true → (k : ℕ) → row ≤ k → k < row + 256 → row_of before.now k ≡ row_of after.now k }
{
    let from = ROW_BYTES * row;
    let to = from + ROW_BYTES * BLOCK;
    row % BLOCK == 0 && to <= after.len() && before[from..to] == after[from..to]
}

/// Writes the lines of the rows that differ, by rising address, one put a line, each in the line that is lent.
pub(crate) fn write_rows<S: Sink>(
    before: &Ram,
    after: &Ram,
    line: &mut Line,
    out: &mut S,
) -> Result<(), Failed>
    requires { length before.now.bytes ≡ length after.now.bytes }
    ensures { Writes (row_lines before.now after.now) (S.told out.old) (S.told out.new) result }
{
    let rows = after.size() as usize / ROW_BYTES;
    let mut row = 0;
    while row < rows {
        if is_same_block(before.bytes(), after.bytes(), row) {
            row += BLOCK;
        } else {
            write_row(before, after, row, line, out)?;
            row += 1;
        }
    }
    Ok(())
}
