//! What is known from cycle to cycle, and in how many cycles an entry was the oldest that the defence alone kept from
//! issuing (`specs/Kept.antt`, "How long"; `specs/Reasons.antt`, "What is kept in mind"). Each takes the same time,
//! however many entries were kept.
ghost use Rattle.std.specs.Prelude.{◌≡◌, Some};
ghost use Rattle.slot_reasons.specs.Kept.{note, times_kept};
ghost use Rattle.slot_reasons.specs.Reasons.{first_known, known_by, to_note};

use crate::reasons::{first_past, is_from};
use crate::{Kept, Known, Past};

/// How many places there are for entries that were kept.
pub const KEPT_PLACES: usize = 64;

/// What is known before the first cycle.
pub fn first_known() -> Known
    ensures { result ≡ first_known }
{
    Known {
        past: first_past(),
        kept: [Kept {
            serial: 0,
            cycles: 0,
        }; KEPT_PLACES],
    }
}

/// In how many cycles the entry of this serial was the oldest kept one, as far as is kept in mind.
#[inline(always)]
pub(crate) fn times_kept(kept: &[Kept; KEPT_PLACES], serial: u64) -> u64
    ensures { result ≡ times_kept kept.now serial }
{
    let held = kept[(serial % 64) as usize];
    if held.serial == serial {
        held.cycles
    } else {
        0
    }
}

// The entry of this serial was the oldest kept one in one more cycle.
#[inline(always)]
fn note(kept: &mut [Kept; KEPT_PLACES], serial: u64)
    ensures { kept.new ≡ note (Some serial) kept.old }
{
    let cycles = times_kept(kept, serial).saturating_add(1);
    kept[(serial % 64) as usize] = Kept { serial, cycles };
}

// The oldest kept entry, if there is one, unless it was renamed in this very cycle.
fn to_note(renamed: Option<u64>, oldest: Option<u64>) -> Option<u64>
    ensures { result ≡ to_note renamed oldest }
{
    match oldest {
        None => None,
        Some(serial) => {
            if is_from(renamed, serial) {
                None
            } else {
                Some(serial)
            }
        }
    }
}

/// Makes of what is known before a cycle what is known once it is over, from what its events tell, and from the oldest
/// entry that the defence alone keeps from issuing, if there is one.
#[inline(always)]
pub fn know_cycle(known: &mut Known, now: Past, oldest: Option<u64>)
    ensures { known.new ≡ known_by known.old now oldest }
{
    known.past.renamed = now.renamed;
    known.past.late = now.late;
    known.past.next = now.next;
    known.past.queued = now.queued;
    if let Some(serial) = to_note(now.renamed, oldest) {
        note(&mut known.kept, serial);
    }
}
