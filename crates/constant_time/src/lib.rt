//! Laws of the constant-time contract: what leaks alike on the path gives one trace, under a defence that lets nothing
//! show an operand before it is visible, as `delay` does.
//!
//! The path of a program is its run of the instruction set. What it leaks are the addresses of its instructions, of its
//! loads and stores, where its branches go, its dividends and what its calls are asked for. So one run of the
//! instruction set that shows nothing of a secret proves it for every core.
//!
//! Rules: `specs/Leaks.antt`, what the path leaks; `Waits.antt`, what a defence has to keep; `Laws.antt`, of two
//! memories; `PathMarks.antt`, marks beside a run of the instruction set; `Certified.antt`, what such a run proves;
//! `Worked.antt`, runs that are judged; `docs/theorems.md`, "Constant time on the path".
//!
//! Promises: `docs/theorems.md`, "Constant time on the path", phase by phase and for whole runs, in the general form
//! and of `delay`; the paths of small programs show what they have to, and a cipher hides its key on every core.
//!
//! Clauses: `what_leaks_alike_gives_one_trace`, `phases_leak_alike`, `one_path_proves_every_core`, `paths_are_judged`,
//! `cipher_hides_its_key_on_every_core`.
#![tactic(auto)]

ghost use Rattle.constant_time.specs.Certified.{
  EndedPathLeaksAlike,
  EveryCore,
  EveryCoreOfBothModels,
  EveryCoreOfOneOutput,
  FirstStepShows,
  OnePathForAllOfOneOutput,
  OnePathTellsAll,
  OneRunForEveryCore,
  PathPublishesItsSteps,
};
ghost use Rattle.constant_time.specs.Laws.{
  ContractUnderDelay,
  ContractWhereShownIsVisible,
  DelayWaits,
  IssueLeaksAlike,
  ResolveLeaksAlike,
  RetireLeaksAlike,
};
ghost use Rattle.constant_time.specs.Worked.{CipherOnEveryCore, PathsThatHide, PathsThatPublish, PathsThatShow, TableShows};

use rv_types::Kind;

/// The first step of a run in which something of a marked value shows.
#[derive(Clone, Copy, Debug, PartialEq, Eq)]
pub struct FirstStep {
    /// The number of the step, where that with which the run begins has number 1.
    pub step: u64,
    /// The kind of the step's instruction, which tells what shows: the base of a load or store, a dividend, where a
    /// branch or JALR goes, what a call is asked for.
    pub kind: Kind,
    /// The address of the instruction.
    pub pc: u32,
}

/// Two memories of one shape of which the path leaks alike, in the steps that a trace retires and as many more as the
/// window holds, give one trace: under a model that protects, in any run in which what shows an operand is visible.
/// Under the defence `delay` that is every run.
pub fn what_leaks_alike_gives_one_trace()
    ensures wherever_visible { ContractWhereShownIsVisible }
    ensures waits { DelayWaits }
    ensures delay { ContractUnderDelay }
{}

/// In each phase that looks at values two machines whose paths leak alike have the same events, and stay equal but for
/// values.
pub fn phases_leak_alike()
    ensures resolve { ResolveLeaksAlike }
    ensures retire { RetireLeaksAlike }
    ensures issue { IssueLeaksAlike }
{}

/// One run of the instruction set that ends, with marks beside it of which none shows, proves for every secret with
/// which it publishes the same, that the trace is one: under every description with a model that protects and the
/// defence `delay`, whatever its sizes, and of any number of cycles. Where no stream is public that is every secret.
/// One walk of the run that passes faulting accesses over is enough for both models, and so is one of the instruction
/// set that doesn't end at such an access. Where something shows there is a first step in which it does.
pub fn one_path_proves_every_core()
    ensures path { OnePathTellsAll }
    ensures ended { EndedPathLeaksAlike }
    ensures publishes { PathPublishesItsSteps }
    ensures first { FirstStepShows }
    ensures one_path { OnePathForAllOfOneOutput }
    ensures every_core_output { EveryCoreOfOneOutput }
    ensures every_core { EveryCore }
    ensures both_models { EveryCoreOfBothModels }
    ensures one_run { OneRunForEveryCore }
{}

/// What the paths of small programs show, and in which step; what they don't; and what shows no more once it is
/// published.
pub fn paths_are_judged()
    ensures shown { PathsThatShow }
    ensures hidden { PathsThatHide }
    ensures published { PathsThatPublish }
{}

/// A cipher that loads its key has one trace for all keys on every core with `delay`, by one run of the instruction set
/// with one key; a look-up in a table by the key shows.
pub fn cipher_hides_its_key_on_every_core()
    ensures every_core { CipherOnEveryCore }
    ensures table { TableShows }
{}
