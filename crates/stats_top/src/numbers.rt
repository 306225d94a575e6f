//! What is counted of a run: the numbers of its rows, and its slots by reason.
ghost use Rattle.std.specs.Prelude.{◌≡◌, ◌<◌, ◌+◌, ◌^◌, ◌++◌, ◌∷◌, List, ℕ, []};
ghost use Rattle.window_model.specs.Serials.{Rise};
ghost use Rattle.run_counts.specs.inner.Counting.{AtMost};
ghost use Rattle.slot_reasons.specs.Kept.{counts_for};
ghost use Rattle.slot_reasons.specs.Reasons.{known_by};
ghost use Rattle.slot_reasons.specs.Slots.{Charge, slots};
ghost use Rattle.slot_reasons.specs.inner.Filled.{filled};
ghost use Rattle.stats_top.specs.inner.Counting.{charged_in};

use core_cycle::Core;
use kept_entry::oldest_kept;
use machine_desc::Desc;
use rename_taint::RenameTaint;
use run_counts::Counts;
use slot_reasons::{Known, Over, Past, Slots, count_row, know_cycle};
use std::marker::Model;
use window_model::{Clocked, Row};

// Counts the slots that stayed empty in a cycle in which so many instructions retired, once its others are counted.
#[inline(always)]
fn lose<R: RenameTaint>(
    numbers: &mut Slots,
    core: &Core<R>,
    desc: &Desc,
    known: &mut Known,
    now: &Past,
    retired: u64,
)
    requires desc { desc.now ≡ core.now.desc }
    requires rise { Rise core.now.machine.window }
    requires lost { retired < desc.now.core_retire_width }
    ensures numbers { (cs : List Charge) → numbers.old ≡ filled retired (slots cs)
        → numbers.new ≡ slots (cs ++ charged_in desc.now known.old now.now retired core.now.machine ∷ []) }
    ensures known { known.new ≡ known_by known.old now.now (counts_for desc.now retired core.now.machine.window) }
{
    let over = Over {
        number: core.cycles(),
        retired,
        end: core.end(),
        kept: oldest_kept(core, desc),
    };
    numbers.lose(desc, known, now, &over, core.rob());
    know_cycle(known, *now, over.kept);
}

/// What is counted of some cycles of a run. It takes no memory.
#[derive(Drop)]
pub(crate) struct Numbers {
    counts: Counts,
    slots: Slots,
}

impl Model for Numbers {
    ghost use Rattle.stats_top.specs.Stats.{Numbers};

    ghost Value = { Numbers };

    ghost view = { λ n. record { counts = n.counts; slots = n.slots } };
}

impl Numbers {
    ghost use Rattle.slot_reasons.specs.Slots.{Seen};
    ghost use Rattle.slot_reasons.specs.Kept.{counts_for};
    ghost use Rattle.slot_reasons.specs.Reasons.{known_by, past_after};
    ghost use Rattle.window_model.specs.Serials.{Rise};
    ghost use Rattle.stats_top.specs.Stats.{numbers_of};
    ghost use Rattle.stats_top.specs.inner.Counting.{charge_by};

    /// The numbers of no cycle.
    pub(crate) fn new() -> Self
        ensures { result ≡ numbers_of [] }
    {
        Numbers {
            counts: Counts::new(),
            slots: Slots::new(),
        }
    }

    /// Counts a cycle behind those of which these are the numbers, before which this was known, in which so many
    /// instructions retired, and which left the core so. What is known then is what is known before the next one.
    #[inline(always)]
    pub(crate) fn count<R: RenameTaint>(
        &mut self,
        core: &Core<R>,
        desc: &Desc,
        known: &mut Known,
        row: &Row,
        retired: u64,
    )
        requires desc { desc.now ≡ core.now.desc }
        requires rise { Rise core.now.machine.window }
        requires few { AtMost (2 ^ 62) self.old.counts }
        ensures counted { (seen : List Seen) → self.old ≡ numbers_of seen
            → self.new ≡ numbers_of (seen ++ record {
              row = row.now;
              charge = charge_by desc.now known.old row.now.events retired core.now.machine;
            } ∷ []) }
        ensures known { known.new ≡ known_by known.old (past_after desc.now known.old.past row.now.events)
            (counts_for desc.now retired core.now.machine.window) }
        ensures few { (most : ℕ) → AtMost most self.old.counts → AtMost (most + 256) self.new.counts }
    {
        let now = count_row(&mut self.counts, desc, &known.past, row);
        if self.slots.fill(desc, retired) == 0 {
            know_cycle(known, now, None);
            return;
        }
        lose(&mut self.slots, core, desc, known, &now, retired);
    }

    /// Adds the numbers of the cycles that come behind those of which these are.
    pub(crate) fn add(&mut self, others: &Numbers)
        ensures { (seen behind : List Seen) → self.old ≡ numbers_of seen → others.now ≡ numbers_of behind
            → self.new ≡ numbers_of (seen ++ behind) }
    {
        self.counts.add(&others.counts);
        self.slots.add(&others.slots);
    }

    /// The numbers of the rows.
    pub(crate) fn counts(&self) -> &Counts
        ensures { result.now ≡ self.now.counts }
    {
        &self.counts
    }

    /// The slots by reason.
    pub(crate) fn slots(&self) -> &Slots
        ensures { result.now ≡ self.now.slots }
    {
        &self.slots
    }
}
