//! Why no verdict is told, or not all of it, with the status of each cause and its line.
ghost use Rattle.std.specs.Prelude.{◌≡◌, Result};
ghost use Rattle.run_inputs.specs.Refused.{words_refused};
ghost use Rattle.run_inputs.specs.declared.refusal.Refusal.TheVariants.{Write, Memory};
ghost use Rattle.secrets_top.specs.declared.refusal.Unjudged.TheVariants.{Refused};
ghost use Rattle.secrets_top.specs.Refused.{fault_word, range_line, note_line, status_of};

use crate::ranges::{FaultyRange, RangeFault};
use crate::verdict::{Verdict, verdict_status};
use line_text::Line;
use run_inputs::Refusal;
use rv_types::NoMemory;
use thiserror::Error;
use tool_io::Failed;
use tool_words::Refused;

/// Why no verdict is told, or not all of it.
#[derive(Debug, Drop, Error)]
pub(crate) enum Unjudged {
    /// A range of secret bytes isn't within memory, or touches code.
    #[error("a range of secret bytes isn't accepted")]
    Range(FaultyRange),
    /// Words, a description or an image are refused, the text couldn't be written whole, or there was no memory.
    #[error("{0}")]
    Refused(Refusal),
}

impl From<Refusal> for Unjudged {
    ghost from_gives = { λ refusal r. r ≡ Refused refusal };

    fn from(refusal: Refusal) -> Unjudged {
        Unjudged::Refused(refusal)
    }
}

impl From<Refused> for Unjudged {
    ghost from_gives = { λ refused r. r ≡ Refused (words_refused refused) };

    fn from(refused: Refused) -> Unjudged {
        Unjudged::Refused(Refusal::from(refused))
    }
}

impl From<NoMemory> for Unjudged {
    ghost from_gives = { λ _ r. r ≡ Refused Memory };

    fn from(_wanting: NoMemory) -> Unjudged {
        Unjudged::Refused(Refusal::Memory)
    }
}

impl From<Failed> for Unjudged {
    ghost from_gives = { λ _ r. r ≡ Refused Write };

    fn from(_failed: Failed) -> Unjudged {
        Unjudged::Refused(Refusal::Write)
    }
}

/// The status of an outcome (`docs/formats.md`, "Statuses").
pub(crate) fn status_of(outcome: &Result<Verdict, Unjudged>) -> u8
    ensures { result ≡ status_of outcome.now }
{
    match outcome {
        Ok(verdict) => verdict_status(verdict),
        Err(Unjudged::Range(_)) => 2,
        Err(Unjudged::Refused(refusal)) => run_inputs::status_of(refusal),
    }
}

fn fault_word(fault: RangeFault) -> &'static [u8]
    ensures { result.now ≡ fault_word fault }
{
    match fault {
        RangeFault::Outside => b" outside\n",
        RangeFault::Code => b" code\n",
    }
}

#[tactic(auto, unfolding(crate::specs::Refused::range_line))]
fn range_line(faulty: &FaultyRange) -> Line
    ensures { result ≡ range_line faulty.now }
{
    let mut line = Line::new();
    line.add(b"secret ");
    line.add_decimal(faulty.number);
    line.add(fault_word(faulty.fault));
    line
}

/// The line that tells a cause (`docs/formats.md`, "Notes").
pub(crate) fn note_line(cause: &Unjudged) -> Line
    ensures { result ≡ note_line cause.now }
{
    match cause {
        Unjudged::Range(faulty) => range_line(faulty),
        Unjudged::Refused(refusal) => run_inputs::note_line(refusal),
    }
}
