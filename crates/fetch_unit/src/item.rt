//! The item of an address, and where fetching goes on after it (`docs/machine.md`, "Entries", "Fetch").
ghost use Rattle.std.specs.Prelude.{◌≡◌, None, length, slice_index_or};
ghost use Rattle.fetch_unit.specs.Unit.{Predicts, predicting};
ghost use Rattle.elf_loader.specs.inner.Code.{word_at};
ghost use Rattle.predictor.specs.Tables.{target_place};
ghost use Rattle.machine_desc.specs.declared.Desc.{Desc};
ghost use Rattle.window_model.specs.State.{Machine};
ghost use Rattle.window_model.specs.Fetch.{guess, item_at, predicted_pc, stored_target, target_of, unless_returns};
ghost use Rattle.window_model.specs.History.{returns_to};

use elf_loader::Code;
use history_pred::History;
use predictor::Predictor;
use rv_effect::relative;
use rv_types::{Cause, Instr, Kind};
use window_model::Item;

// Where a JAL goes, or a branch that is taken. Else the address behind.
fn target_of(pc: u32, instr: &Instr) -> u32
    ensures { result ≡ target_of pc instr.now }
{
    match *instr {
        Instr::Jal { imm, .. } => relative(pc, imm),
        Instr::Branch { imm, .. } => relative(pc, imm),
        _ => pc.wrapping_add(4),
    }
}

// Where a JALR is predicted to go: to the target stored for it, else to the address behind.
#[tactic(auto, using(crate::proofs::Targets::stored_is))]
fn stored_target(predictor: &Predictor, pc: u32) -> u32
    ensures { result ≡ stored_target pc (slice_index_or predictor.now.targets (target_place predictor.now pc) None) }
{
    predictor.target(pc).unwrap_or(pc.wrapping_add(4))
}

// Where a JALR is predicted to go: a return to the youngest address on the stack, if there is one. Any other to the
// target stored for it, else to the address behind.
fn jump_target(predictor: &Predictor, history: &History, pc: u32, instr: &Instr) -> u32
    ensures { result ≡ unless_returns (returns_to instr.now history.now.checkpoint)
        (stored_target pc (slice_index_or predictor.now.targets (target_place predictor.now pc) None)) }
{
    match history.returns_to(instr) {
        Some(back) => back,
        None => stored_target(predictor, pc),
    }
}

// The direction that is predicted: taken only of a branch.
fn guess(predictor: &Predictor, history: &History, pc: u32, kind: Kind) -> bool
    requires same_counters { history.now.counters ≡ length predictor.now.counters }
    ensures { (d : Desc) → history.now.counters ≡ d.predictor_counters
        → result ≡ guess kind d predictor.now.counters history.now.checkpoint pc }
{
    match kind {
        Kind::Branch => predictor.direction(history.index(history.checkpoint(), pc)),
        _ => false,
    }
}

// The address that is predicted to follow, None after a stop. A branch goes this way.
fn predicted(
    predictor: &Predictor,
    history: &History,
    taken: bool,
    pc: u32,
    instr: &Instr,
    kind: Kind,
) -> Option<u32>
    ensures { (d : Desc) → length predictor.now.targets ≡ d.predictor_btb
        → result ≡ predicted_pc kind d predictor.now.targets history.now.checkpoint taken pc instr.now }
{
    match kind {
        Kind::Stop(_) => None,
        Kind::Jal => Some(target_of(pc, instr)),
        Kind::Branch => {
            if taken {
                Some(target_of(pc, instr))
            } else {
                Some(pc.wrapping_add(4))
            }
        }
        Kind::Jalr => Some(jump_target(predictor, history, pc, instr)),
        _ => Some(pc.wrapping_add(4)),
    }
}

/// An item, and the direction that was guessed of it.
#[derive(Clone, Copy)]
pub(crate) struct Fetched {
    pub(crate) item: Item,
    pub(crate) taken: bool,
}

/// The item of an address, with the direction by which it is predicted. Outside code it is a stop.
#[tactic(auto, using(crate::proofs::Items::item_there, crate::proofs::Items::nothing_there))]
pub(crate) fn fetched_at(predictor: &Predictor, history: &History, code: &Code, pc: u32) -> Fetched
    requires same_counters { history.now.counters ≡ length predictor.now.counters }
    ensures item { (d : Desc) → Predicts predictor.now history.now d → (x : Machine)
        → result.item ≡ item_at d (word_at code.now) (predicting predictor.now history.now x) pc }
    ensures taken { (d : Desc) → Predicts predictor.now history.now d
        → result.taken ≡ guess result.item.kind d predictor.now.counters history.now.checkpoint pc }
{
    let Some(decoded) = code.decoded(pc) else {
        return Fetched {
            item: Item {
                pc,
                instr: Instr::Illegal(0),
                kind: Kind::Stop(Cause::outside_code()),
                predicted: None,
                checkpoint: *history.checkpoint(),
            },
            taken: false,
        };
    };
    let instr = decoded.instr;
    let kind = decoded.kind;
    let taken = guess(predictor, history, pc, kind);
    Fetched {
        item: Item {
            pc,
            instr,
            kind,
            predicted: predicted(predictor, history, taken, pc, &instr, kind),
            checkpoint: *history.checkpoint(),
        },
        taken,
    }
}
