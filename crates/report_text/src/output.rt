//! The lines of output (`docs/formats.md`, "The report").
ghost use Rattle.std.specs.Prelude.{◌≡◌, ◌≤◌, length};
ghost use Rattle.tool_io.specs.Outside.{Writes};
ghost use Rattle.report_text.specs.Report.{out_line, piece_text};

use line_text::Line;
use rv_types::Piece;
use tool_io::{Failed, Sink};

#[tactic(auto, unfolding(crate::specs::Report::out_line))]
fn out_line(bytes: &[u8]) -> Line
    requires { length bytes.now ≤ 1024 }
    ensures { result ≡ out_line bytes.now }
{
    let mut line = Line::new();
    line.add(b"out ");
    line.add_hex_bytes(bytes);
    line.add(b"\n");
    line
}

// Writes the line of these bytes by one put. It stands apart, so that who has nothing to write doesn't make room for a
// line.
#[inline(never)]
fn write_line<S: Sink>(bytes: &[u8], out: &mut S) -> Result<(), Failed>
    requires { length bytes.now ≤ 1024 }
    ensures { Writes (out_line bytes.now) (S.told out.old) (S.told out.new) result }
{
    out.put(out_line(bytes).as_slice())
}

/// Writes the line of a piece of output by one put, and nothing for an empty piece. Error: `Failed`, only where the
/// sink's count of faults rose; then the first bytes of the line were appended, maybe none.
#[inline]
pub fn write_piece<S: Sink>(piece: &Piece, out: &mut S) -> Result<(), Failed>
    ensures { Writes (piece_text piece.now) (S.told out.old) (S.told out.new) result }
{
    let bytes = piece.as_slice();
    if bytes.is_empty() {
        return Ok(());
    }
    write_line(bytes, out)
}
