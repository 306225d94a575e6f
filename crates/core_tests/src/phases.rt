//! The phases one by one over words in flight (`flights.rt`, `stores.rt`, `lines.rt`, `settings.rt`), over both tables
//! of names.
ghost use Rattle.std.specs.Prelude.{◌≡◌, true};
ghost use Rattle.std.specs.List.{AllByRecursion as Each};
ghost use Rattle.machine_facts.specs.Timely.{WaitsOrDone};

use crate::asserting::assert_same;
use crate::descriptions::{WIDE, changed, described, model_of};
use crate::flights::{COMPLETING, Flight, ISSUING, Phase, RESOLVING};
use crate::images::code_image;
use crate::lines::{ANY_ADDRESS, NEXT_LINE, OVER_TWO_LINES, PREFETCHING, SECOND_LEVEL, TWO_LEVELS};
use crate::settings::{CLEARING, HOLDING, PASSING, RESULTS_HELD, SHOWN, UNPROTECTED};
use crate::stores::STORES;
use clear::clear;
use complete::complete;
use core_parts::Parts;
use elf_loader::Image;
use fill::fill;
use issue::issue;
use machine_desc::{Desc, EXAMPLE};
use rename::rename;
use rename_taint::{ByScan, ByTable, RenameTaint};
use resolve::resolve;
use rob_ring::RobRing;
use std::alloc::Global;
use std::process::Abort;
use std::test::Fail;
use window_model::{Entry, Event, Progress, Row, empty_row};

/// The parts before the first cycle of a few words of code, at the base of memory, where fetch begins. They stand in a
/// box, since what moves them by value is dear to prove.
pub fn parts_of<R: RenameTaint + Drop>(
    alloc: Global,
    desc: &Desc,
    words: &[u32],
) -> Result<Box<Parts<R>>, Fail> {
    let Image { ram, code, entry } = code_image(alloc, desc.takes_any_address(), words)?;
    let parts = Parts::new(alloc, desc, code, entry, ram)?;
    Ok(Box::new(alloc, parts)?)
}

// Whether the entry is no store that executes.
fn is_settled(entry: &Entry) -> bool
    ensures { result ≡ true → WaitsOrDone entry.now }
{
    if let Progress::Busy(_) = entry.state {
        return !entry.is_store();
    }
    true
}

// Whether no store executes.
fn are_settled(rob: &RobRing) -> bool
    ensures { result ≡ true → Each WaitsOrDone rob.now.entries }
{
    for i in 0..rob.len() {
        if !is_settled(rob.lend(i)) {
            return false;
        }
    }
    true
}

/// The phase goes in this cycle, on the visibility point that has moved over the window; the row has its events alone.
pub fn perform<R: RenameTaint>(
    rt: &impl Abort,
    cycle: u32,
    phase: Phase,
    parts: &mut Parts<R>,
    row: &mut Row,
) {
    for _ in parts.cycle..cycle {
        if parts.cycle < cycle {
            parts.begin();
        }
    }
    row.begin(cycle);
    parts.advance();
    match phase {
        Phase::Fill => fill(parts, row),
        Phase::Complete => complete(parts, row),
        Phase::Resolve => resolve(parts, row),
        Phase::Clear => clear(parts, row),
        Phase::Issue => {
            if !are_settled(parts.rob()) {
                panic!(rt; "a store executes as Issue begins");
            }
            let _ = issue(parts, row);
        }
        Phase::Fetch => parts.fetch(row),
        Phase::Rename => {
            if parts.next_serial > 100 {
                panic!(rt; "too many serials");
            }
            rename(parts, row);
        }
    }
}

// How far the entries in flight are, and their values.
fn assert_left<R: RenameTaint>(rt: &impl Abort, parts: &Parts<R>, left: &[(Progress, u32)]) {
    let rob = parts.rob();
    assert_same(rt, &(rob.len() as usize), &left.len());
    for (i, wanted) in left.iter().enumerate() {
        if i >= rob.len() as usize {
            return;
        }
        let entry = rob.at(i as u32);
        let value = match entry.outcome {
            Some(outcome) => outcome.value,
            None => 0,
        };
        assert_same(rt, &(entry.state, value), wanted);
    }
}

// Four words come in, and then each phase goes with its events.
fn go<R: RenameTaint>(
    rt: &impl Abort,
    parts: &mut Parts<R>,
    phases: &[(u32, Phase, &'static [Event])],
) {
    let mut row = empty_row();
    perform(rt, 1, Phase::Fetch, parts, &mut row);
    perform(rt, 1, Phase::Rename, parts, &mut row);
    assert_same(rt, &parts.rob().len(), &4);
    for (cycle, phase, events) in phases {
        perform(rt, *cycle, *phase, parts, &mut row);
        assert_same(rt, &(phase, cycle, row.events()), &(phase, cycle, *events));
    }
}

// The flight goes phase by phase as it was worked out, under this description.
fn goes_as_worked<R: RenameTaint + Drop>(
    rt: &impl Abort,
    alloc: Global,
    desc: &Desc,
    flight: &Flight,
) -> Result<(), Fail> {
    let mut parts: Box<Parts<R>> = parts_of(alloc, desc, flight.words)?;
    go(rt, &mut parts, flight.phases);
    assert_left(rt, &parts, flight.left);
    Ok(())
}

// The phases that go over words in flight.
static OTHERS: [Phase; 5] = [
    Phase::Fill,
    Phase::Complete,
    Phase::Resolve,
    Phase::Clear,
    Phase::Issue,
];

// Two words are fetched, and before they are renamed no phase finds anything.
fn fetches_alone<R: RenameTaint>(rt: &impl Abort, parts: &mut Parts<R>) {
    let mut row = empty_row();
    perform(rt, 1, Phase::Fetch, parts, &mut row);
    let fetched = [Event::Fet(0x0001_0000), Event::Fet(0x0001_0004)];
    assert_same(rt, &row.events(), &fetched.as_slice());
    for &phase in &OTHERS {
        perform(rt, 1, phase, parts, &mut row);
        assert_same(rt, &row.events().len(), &0);
    }
}

// Nothing has come in, and nothing keeps the first from being visible.
fn assert_empty<R: RenameTaint>(rt: &impl Abort, parts: &Parts<R>) {
    assert!(rt; parts.point().visible(0));
    assert_same(rt, &(parts.rob().len(), parts.stations().len()), &(0, 0));
}

// The core of this description fetches two words, and nothing else goes.
fn nothing_else_goes<R: RenameTaint + Drop>(
    rt: &impl Abort,
    alloc: Global,
    text: &str,
) -> Result<(), Fail> {
    let desc = described(alloc, text)?;
    let mut parts: Box<Parts<R>> = parts_of(alloc, &desc, &[0x0002_a023, 0x0003_a303])?;
    fetches_alone(rt, &mut parts);
    assert_empty(rt, &parts);
    Ok(())
}

#[test]
fn nothing_is_in_flight_at_first(rt: HostRuntime) -> Result<(), Fail> {
    for text in [EXAMPLE, PASSING] {
        nothing_else_goes::<ByTable>(&rt, rt.alloc(), text)?;
        nothing_else_goes::<ByScan>(&rt, rt.alloc(), text)?;
    }
    Ok(())
}

// The flights go as worked over both tables, under this description with four words fetched a cycle.
fn go_under(rt: &impl Abort, alloc: Global, text: &str, flights: &[Flight]) -> Result<(), Fail> {
    for flight in flights {
        let desc = changed(rt, alloc, text, &[WIDE, model_of(flight.model)])?;
        goes_as_worked::<ByTable>(rt, alloc, &desc, flight)?;
        goes_as_worked::<ByScan>(rt, alloc, &desc, flight)?;
    }
    Ok(())
}

// The flights go as worked under the example description in this version.
fn go_as_worked(
    rt: &impl Abort,
    alloc: Global,
    version: u32,
    flights: &[Flight],
) -> Result<(), Fail> {
    let text = format!(in alloc; "version = {version}\n{EXAMPLE}")?;
    go_under(rt, alloc, text.as_str(), flights)
}

#[test]
fn who_is_due_becomes_done(rt: HostRuntime) -> Result<(), Fail> {
    for version in [1, 2] {
        go_as_worked(&rt, rt.alloc(), version, &COMPLETING)?;
    }
    Ok(())
}

#[test]
fn a_wrong_prediction_squashes(rt: HostRuntime) -> Result<(), Fail> {
    for version in [1, 2] {
        go_as_worked(&rt, rt.alloc(), version, &RESOLVING)?;
    }
    Ok(())
}

#[test]
fn who_may_issues(rt: HostRuntime) -> Result<(), Fail> {
    go_as_worked(&rt, rt.alloc(), 1, &ISSUING)
}

#[test]
fn a_store_issues_in_two_parts(rt: HostRuntime) -> Result<(), Fail> {
    go_as_worked(&rt, rt.alloc(), 2, &STORES)
}

#[test]
fn an_access_has_two_lines(rt: HostRuntime) -> Result<(), Fail> {
    go_under(&rt, rt.alloc(), ANY_ADDRESS, &OVER_TWO_LINES)
}

#[test]
fn a_line_comes_from_the_second_level(rt: HostRuntime) -> Result<(), Fail> {
    go_under(&rt, rt.alloc(), TWO_LEVELS, &SECOND_LEVEL)
}

#[test]
fn the_next_line_is_prefetched(rt: HostRuntime) -> Result<(), Fail> {
    go_under(&rt, rt.alloc(), NEXT_LINE, &PREFETCHING)
}

#[test]
fn the_oldest_store_is_cleared(rt: HostRuntime) -> Result<(), Fail> {
    go_under(&rt, rt.alloc(), PASSING, &CLEARING)
}

#[test]
fn results_are_held_back(rt: HostRuntime) -> Result<(), Fail> {
    go_under(&rt, rt.alloc(), HOLDING, &RESULTS_HELD)
}

#[test]
fn all_is_visible(rt: HostRuntime) -> Result<(), Fail> {
    go_under(&rt, rt.alloc(), UNPROTECTED, &SHOWN)
}
