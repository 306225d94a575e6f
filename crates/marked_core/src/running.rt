//! A run until something shows.
ghost use Rattle.std.specs.Prelude.{◌≡◌, ◌<◌, ◌+◌, ◌^◌, length, None};
ghost use Rattle.elf_loader.specs.inner.Code.{word_at};
ghost use Rattle.window_model.specs.Cycle.{after_cycles};
ghost use Rattle.secret_marks.specs.Published.{published_by};
ghost use Rattle.secret_marks.specs.Shown.{first_shown};
ghost use Rattle.secret_marks.specs.Streams.{public_in};

use crate::marked::MarkedCore;
use mark_words::count_published;
use rename_taint::RenameTaint;
use rv_types::Piece;
use secret_marks::FirstShown;
use window_model::Row;

/// Runs the core for at most so many cycles, until something shows. The answer is what shows first, and the number of
/// the cycle in which it does; None where nothing shows until the run ends or the cycles are over. Then `published` is
/// how many bytes these cycles published. Row and piece are those of the last cycle.
pub fn first_shown<R: RenameTaint>(
    core: &mut MarkedCore<R>,
    row: &mut Row,
    piece: &mut Piece,
    published: &mut u64,
    cycles: u32,
) -> Option<FirstShown>
    requires few { core.old.machine.cycle + cycles < 2 ^ 32 }
    ensures shown { result ≡ first_shown (public_in core.old.public) core.old.desc (word_at core.old.code) cycles
        core.old.machine core.old.marks }
    ensures machine { result ≡ None
        → core.new.machine ≡ after_cycles core.old.desc (word_at core.old.code) cycles core.old.machine }
    ensures published { result ≡ None → published.new
        ≡ length (published_by (public_in core.old.public) core.old.desc (word_at core.old.code) cycles core.old.machine) }
    ensures desc { core.new.desc ≡ core.old.desc }
    ensures code { core.new.code ≡ core.old.code }
    ensures public { core.new.public ≡ core.old.public }
{
    *published = 0;
    for _ in 0..cycles {
        if core.end().is_some() {
            return None;
        }
        let stream = core.stream();
        if let Some(shown) = core.cycle(row, piece) {
            return Some(FirstShown {
                cycle: core.cycles(),
                shown,
            });
        }
        *published += count_published(core.public(), stream, piece.as_slice());
    }
    None
}
