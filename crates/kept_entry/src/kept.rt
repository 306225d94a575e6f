//! The oldest entry that the defence may keep from issuing, and whether it does.
ghost use Rattle.std.specs.Prelude.{◌≡◌};
ghost use Rattle.window_model.specs.Serials.{Rise};
ghost use Rattle.window_model.specs.Taint.{protects};
ghost use Rattle.slot_reasons.specs.Kept.{oldest_kept};
ghost use Rattle.kept_entry.specs.State.{LooksAt, Stands};

use crate::seen::Seen;
use core_cycle::Core;
use machine_desc::{Desc, SttModel};
use rename_taint::RenameTaint;

// Whether there is something that isn't visible under the model.
fn protects(model: SttModel) -> bool
    ensures { result ≡ protects model }
{
    match model {
        SttModel::Off => false,
        _ => true,
    }
}

// What is looked at of a core.
#[inline(always)]
fn seen_of<'a, R: RenameTaint>(core: &'a Core<R>, desc: &'a Desc) -> Seen<'a>
    requires desc { desc.now ≡ core.now.desc }
    requires rise { Rise core.now.machine.window }
    ensures stands { Stands result }
    ensures desc { result.desc.now ≡ core.now.desc }
    ensures window { LooksAt result core.now.machine }
{
    Seen {
        rob: core.rob(),
        stations: core.stations(),
        point: core.point(),
        desc,
    }
}

// What [`oldest_kept`] tells, by a walk over the stations. It stays a call of its own, since few calls come here.
#[inline(never)]
fn walked<R: RenameTaint>(core: &Core<R>, desc: &Desc) -> Option<u64>
    requires desc { desc.now ≡ core.now.desc }
    requires rise { Rise core.now.machine.window }
    ensures { result ≡ oldest_kept core.now.desc core.now.machine.window }
{
    let seen = seen_of(core, desc);
    seen.oldest_kept(core)
}

/// The serial of the oldest entry that waits and isn't visible although the writers of all its sources are Done, as a
/// core stands between two cycles, if the defence doesn't let that entry issue. None where the defence does, or where
/// there is no such entry.
#[inline(always)]
pub fn oldest_kept<R: RenameTaint>(core: &Core<R>, desc: &Desc) -> Option<u64>
    requires desc { desc.now ≡ core.now.desc }
    requires rise { Rise core.now.machine.window }
    ensures { result ≡ oldest_kept core.now.desc core.now.machine.window }
{
    if !protects(desc.stt_model) {
        return None;
    }
    if seen_of(core, desc).asks_nobody() {
        return None;
    }
    walked(core, desc)
}
