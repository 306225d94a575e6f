//! The phase: item by item.
ghost use Rattle.std.specs.Prelude.{◌≡◌, ◌<◌, ◌+◌, ◌^◌, None, Some, option_copied, slice_get};
ghost use Rattle.std.specs.Option.{option_map};
ghost use Rattle.window_model.specs.declared.Item.{Item};
ghost use Rattle.window_model.specs.Rename.{rename, CallAlone};
ghost use Rattle.window_model.specs.inner.Row.{HasRoom, IsLonger, most_fetched, with_events};
ghost use Rattle.rename.specs.Fitting.{Counted, fitting, next_item, with_oldest};

use crate::entering::{add_access, add_entry, add_station, add_write, push_within};
use crate::room::fits;
use crate::sources::{awaits_of, sources_of};
use core_parts::Parts;
use fetch_unit::Fetch;
use lsq::Lsq;
use machine_desc::Desc;
use rename_taint::RenameTaint;
use rob_ring::RobRing;
use stations::Stations;
use window_model::{Event, Item, Row};

/// Phase Rename: up to the description's width of fetching, the oldest fetched items come into the window, each with
/// the next serial and with its event in the row, as long as they fit. The visibility point doesn't yet say whether
/// what comes in is visible.
pub fn rename<R: RenameTaint>(parts: &mut Parts<R>, row: &mut Row)
    requires serials { parts.old.machine.next_serial + most_fetched < 2 ^ 64 }
    requires room { HasRoom most_fetched row.old }
    ensures machine { parts.new ≡ record parts.old { machine = (rename parts.old.desc parts.old.machine).machine } }
    ensures row { row.new ≡ with_events row.old (rename parts.old.desc parts.old.machine).events }
    ensures few { IsLonger most_fetched row.old row.new }
{
    for _ in 0..parts.desc.core_fetch_width {
        let serial = parts.next_serial;
        let Some(pc) = enter_next(parts) else {
            return;
        };
        row.push(Event::Ren(serial, pc));
    }
}

// The oldest fetched item comes into the window with the next serial, and its entry into all parts: with the youngest
// roots and the writers of its sources beside it, its write in the table, a station where it waits, for the writers
// that don't give their values yet, and a load or a store in its queue. The sources are looked up before the entry's
// own write is held. The answer is the item's address, None where there is no item or it can't go into the window;
// nothing changes then.
fn enter_next<R: RenameTaint>(parts: &mut Parts<R>) -> Option<u32>
    requires serials { parts.old.machine.next_serial + 1 < 2 ^ 64 }
    ensures address { result ≡ option_map (λ item. item.pc) (next_item parts.old.desc parts.old.machine) }
    ensures entered { (item : Item) → next_item parts.old.desc parts.old.machine ≡ Some item
        → parts.new ≡ record parts.old { machine = with_oldest parts.old.desc item parts.old.machine } }
    ensures stays { result ≡ None → parts.new ≡ parts.old }
{
    let Some(item) = next_fitting(
        &parts.fetch_unit,
        &parts.desc,
        &parts.rob,
        &parts.stations,
        &parts.lsq,
    ) else {
        return None;
    };
    let serial = parts.next_serial;
    let sources = sources_of(&parts.table, &item.instr);
    let awaits = awaits_of(
        sources.writers,
        &parts.rob,
        parts.desc.stt_defence,
        &parts.point,
    );
    add_station(serial, item, &parts.desc, awaits, &mut parts.stations);
    push_within(&mut parts.sources, sources);
    add_write(serial, item, sources.roots, &mut parts.table);
    add_access(serial, item.kind, sources.roots, &mut parts.lsq);
    add_entry(serial, item, &parts.desc, &mut parts.rob);
    let pc = item.pc;
    parts.fetch_unit.drop_oldest();
    parts.next_serial += 1;
    Some(pc)
}

// Lends the oldest fetched item, if there is one and it can go into the window.
fn next_fitting<'a>(
    fetch_unit: &'a Fetch,
    desc: &Desc,
    rob: &RobRing,
    stations: &Stations,
    lsq: &Lsq,
) -> Option<&'a Item>
    requires call_alone { CallAlone rob.now.entries }
    requires counted { Counted desc.now rob.now.entries stations.now lsq.now }
    ensures { option_copied result ≡ fitting desc.now rob.now.entries (slice_get fetch_unit.now.queue 0) }
{
    let item = fetch_unit.oldest()?;
    if fits(item, desc, rob, stations, lsq) {
        Some(item)
    } else {
        None
    }
}
