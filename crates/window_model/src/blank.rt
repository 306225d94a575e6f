//! Values to fill free places with.
ghost use Rattle.std.specs.Prelude.{◌≡◌, None, false, true};
ghost use Rattle.rv_types.specs.Causes.{illegal};
ghost use Rattle.rv_types.specs.declared.Instr.TheVariants as instr;
ghost use Rattle.rv_types.specs.declared.Kind.TheVariants as kind;
ghost use Rattle.window_model.specs.declared.Progress.TheVariants as state;
ghost use Rattle.window_model.specs.History.{no_checkpoint};

use crate::{Checkpoint, Entry, Item, Miss, Progress, RETURNS_MAX};
use rv_types::{Cause, Instr, Kind};

impl Default for Checkpoint {
    /// No branch yet, and an empty stack.
    fn default() -> Self
        ensures { result ≡ no_checkpoint }
    {
        Checkpoint {
            history: 0,
            depth: 0,
            addresses: [0; RETURNS_MAX],
        }
    }
}

impl Default for Item {
    /// A stop at address 0.
    fn default() -> Self
        ensures { result ≡ record {
          pc = 0;
          instr = instr.Illegal 0;
          kind = kind.Stop illegal;
          predicted = None;
          checkpoint = no_checkpoint;
        } }
    {
        Item {
            pc: 0,
            instr: Instr::Illegal(0),
            kind: Kind::Stop(Cause::illegal()),
            predicted: None,
            checkpoint: Checkpoint::default(),
        }
    }
}

impl Default for Entry {
    /// An entry that is done, with serial 0.
    fn default() -> Self
        ensures { result ≡ record {
          serial = 0;
          item = record {
            pc = 0;
            instr = instr.Illegal 0;
            kind = kind.Stop illegal;
            predicted = None;
            checkpoint = no_checkpoint;
          };
          state = state.Done;
          outcome = None;
          resolved = false;
          issued = None;
          addr_due = None;
          data_due = None;
          cleared = true;
        } }
    {
        Entry {
            serial: 0,
            item: Item::default(),
            state: Progress::Done,
            outcome: None,
            resolved: false,
            issued: None,
            addr_due: None,
            data_due: None,
            cleared: true,
        }
    }
}

impl Default for Miss {
    /// A register for line 0.
    fn default() -> Self
        ensures { result ≡ record { line = 0; due = 0; from_memory = true } }
    {
        Miss {
            line: 0,
            due: 0,
            from_memory: true,
        }
    }
}
