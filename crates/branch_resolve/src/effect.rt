//! What comes of an entry that is resolved.
ghost use Rattle.std.specs.Prelude.{◌≡◌, if◌then◌else◌, length};
ghost use Rattle.window_model.specs.declared.Way.TheVariants as way;
ghost use Rattle.window_model.specs.inner.Row.{HasRoom, IsLonger, with_events};
ghost use Rattle.predictor.specs.Tables.{InEach, IsAsked};
ghost use Rattle.branch_resolve.specs.Effect.{tables_after_learning, learn_events, resolution_of};

use history_pred::History;
use predictor::Predictor;
use rv_types::Kind;
use window_model::{Entry, Event, Row, Way};

/// How an entry's prediction turned out.
#[derive(Clone, Copy, Debug, PartialEq, Eq)]
pub enum Resolution {
    /// Fetching went on at the right address: nothing is dropped.
    Right,
    /// Fetching has to go on at this address, and all that is younger goes.
    Wrong(u32),
    /// The entry will trap: all that is younger goes, and nothing is fetched.
    Fault,
}

/// Resolves a branch or JALR: the predictor learns how it went, and the row tells it. A branch moves its counter, also
/// where it faults: the one that its own history gives it, whatever the present one is. A JALR stores its target, but
/// not where it faults. What is learnt and told is what the definition says under each description of the predictor's
/// sizes, and there is one. The history has as many counters as the predictor.
pub fn resolve(
    entry: &Entry,
    history: &History,
    predictor: &mut Predictor,
    row: &mut Row,
) -> Resolution
    requires room { HasRoom 2 row.old }
    requires same_counters { history.now.counters ≡ length predictor.old.counters }
    ensures described { IsAsked (length predictor.old.counters) (length predictor.old.targets) }
    ensures learnt { InEach predictor.old (λ d. predictor.new ≡ tables_after_learning d predictor.old entry.now) }
    ensures row { InEach predictor.old (λ d. row.new ≡ with_events row.old (learn_events d predictor.old entry.now)) }
    ensures few { IsLonger 2 row.old row.new }
    ensures resolution { result ≡ resolution_of entry.now }
{
    predictor.described();
    teach(entry, history, predictor, row);
    resolution_of(entry)
}

// What the predictor learns from the entry, and the events of that.
fn teach(entry: &Entry, history: &History, predictor: &mut Predictor, row: &mut Row)
    requires room { HasRoom 2 row.old }
    requires same_counters { history.now.counters ≡ length predictor.old.counters }
    ensures learnt { InEach predictor.old (λ d. predictor.new ≡ tables_after_learning d predictor.old entry.now) }
    ensures row { InEach predictor.old (λ d. row.new ≡ with_events row.old (learn_events d predictor.old entry.now)) }
    ensures few { IsLonger 2 row.old row.new }
{
    if entry.item.kind == Kind::Branch {
        let taken = entry.is_taken();
        row.push(Event::Res(entry.serial, way_of(taken)));
        let place = history.index(&entry.item.checkpoint, entry.item.pc);
        row.push(predictor.learn_branch(place, taken));
        return;
    }
    row.push(Event::Res(entry.serial, Way::Jump));
    if !entry.is_faulty() {
        row.push(predictor.learn_target(entry.item.pc, entry.next()));
    }
}

// Which way a branch went.
fn way_of(taken: bool) -> Way
    ensures { result ≡ (if taken then way.Taken else way.NotTaken) }
{
    if taken { Way::Taken } else { Way::NotTaken }
}

// How the entry's prediction turned out.
fn resolution_of(entry: &Entry) -> Resolution
    ensures { result ≡ resolution_of entry.now }
{
    if entry.is_faulty() {
        return Resolution::Fault;
    }
    let next = entry.next();
    match entry.item.predicted {
        Some(predicted) if predicted == next => Resolution::Right,
        _ => Resolution::Wrong(next),
    }
}
