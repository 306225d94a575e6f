//! The queue and the fetch pc.
ghost use Rattle.std.specs.Prelude.{◌≡◌, ◌<◌, ◌++◌, ◌∷◌, [], length, drop, slice_get, option_copied, IfOk, Some};
ghost use Rattle.elf_loader.specs.inner.Code.{word_at};
ghost use Rattle.window_model.specs.inner.Row.{HasRoom, IsLonger, most_fetched, with_events};
ghost use Rattle.window_model.specs.State.{Machine};
ghost use Rattle.fetch_unit.specs.Unit.{AreAsked, InEach, fetches, next_fetch, with_unit};

use crate::item::fetched_at;
use circular_buffer::HeapCircularBuffer;
use elf_loader::Code;
use history_pred::History;
use machine_desc::Desc;
use predictor::Predictor;
use rv_types::NoMemory;
use std::alloc::Global;
use std::marker::Model;
use window_model::{Event, Item, Row};

/// The fetch unit, seen as how many items are fetched a cycle at most, how many the queue holds, the queue of items,
/// oldest first, and the fetch pc: where fetching goes on, None where it doesn't. Both numbers are what some
/// description asks for.
#[derive(Drop)]
pub struct Fetch {
    width: u32,
    queue: HeapCircularBuffer<Item>,
    fetch_pc: Option<u32>,
}

impl Model for Fetch {
    ghost use Rattle.std.specs.Prelude.{◌<◌, ◌≤◌, ◌^◌};
    ghost use Rattle.fetch_unit.specs.Unit.{FetchUnit, IsAsked, unit_code};

    ghost Value = { FetchUnit };

    ghost coded = { unit_code };

    ghost view = { λ f. record {
      width = f.width;
      room = f.queue.capacity;
      queue = f.queue.items;
      fetch_pc = f.fetch_pc;
    } };

    ghost invariant = { λ f. (f.width ≤ 4) × (f.queue.capacity < 2 ^ 32) × IsAsked f.width f.queue.capacity };
}

impl Fetch {
    /// A fetch unit of the description's width and queue that begins at the entry, with an empty queue. It takes all
    /// memory that the queue takes; the one error is want of it.
    pub fn new(alloc: Global, desc: &Desc, entry: u32) -> Result<Fetch, NoMemory>
        ensures { IfOk result (λ f. f ≡ record {
          width = desc.now.core_fetch_width;
          room = desc.now.core_queue;
          queue = [];
          fetch_pc = Some entry;
        }) }
    {
        let queue = HeapCircularBuffer::with_capacity(alloc, desc.core_queue as usize)?;
        Ok(Fetch {
            width: desc.core_fetch_width,
            queue,
            fetch_pc: Some(entry),
        })
    }

    /// Phase Fetch: up to the width of fetching, items come into the queue, each with its event. What it leaves is what
    /// the definition leaves of every machine with this queue, this fetch pc, this predictor, and this history and
    /// stack, under each description of these sizes, and there is one. The history has as many counters as the
    /// predictor.
    pub fn fetch(
        &mut self,
        code: &Code,
        predictor: &Predictor,
        history: &mut History,
        row: &mut Row,
    )
        requires room { HasRoom most_fetched row.old }
        requires same_counters { history.old.counters ≡ length predictor.now.counters }
        ensures described { AreAsked self.old predictor.now history.old }
        ensures machine { InEach self.old predictor.now history.old (λ d. (x : Machine)
            → with_unit self.new predictor.now history.new x
            ≡ (fetches d (word_at code.now) self.old predictor.now history.old x).machine) }
        ensures row { InEach self.old predictor.now history.old (λ d. (x : Machine)
            → row.new ≡ with_events row.old
            (fetches d (word_at code.now) self.old predictor.now history.old x).events) }
        ensures sizes { self.new ≡ record self.old { queue = self.new.queue; fetch_pc = self.new.fetch_pc } }
        ensures history_sizes { history.new ≡ record history.old { checkpoint = history.new.checkpoint } }
        ensures few { IsLonger most_fetched row.old row.new }
    {
        predictor.described();
        history.described();
        for _ in 0..self.width {
            let Some(pc) = self.next() else {
                return;
            };
            let fetched = fetched_at(predictor, history, code, pc);
            history.follow(&fetched.item, fetched.taken);
            self.add(&fetched.item);
            row.push(Event::Fet(pc));
        }
    }

    // Where the next item is fetched, None where fetching doesn't go on or the queue is full.
    fn next(&self) -> Option<u32>
        ensures { result ≡ next_fetch self.now }
    {
        if self.queue.len() < self.queue.capacity() {
            self.fetch_pc
        } else {
            None
        }
    }

    // The item comes into the queue, which has room, and fetching goes on at its predicted next address.
    fn add(&mut self, item: &Item)
        requires room { length self.old.queue < self.old.room }
        ensures { self.new
            ≡ record self.old { queue = self.old.queue ++ item.now ∷ []; fetch_pc = item.now.predicted } }
    {
        let _ = self.queue.try_push_back(*item);
        self.fetch_pc = item.predicted;
    }

    /// Lends the oldest item, None exactly where the queue is empty.
    pub fn oldest(&self) -> Option<&Item>
        ensures { option_copied result ≡ slice_get self.now.queue 0 }
    {
        self.queue.front()
    }

    /// The oldest item, None exactly where the queue is empty.
    pub fn front(&self) -> Option<Item>
        ensures { result ≡ slice_get self.now.queue 0 }
    {
        self.oldest().copied()
    }

    /// Takes the oldest item out of the queue and answers it. None exactly where the queue is empty; nothing changes
    /// then.
    pub fn take(&mut self) -> Option<Item>
        ensures item { result ≡ slice_get self.old.queue 0 }
        ensures left { self.new ≡ record self.old { queue = drop 1 self.old.queue } }
    {
        self.queue.pop_front()
    }

    /// Drops the oldest item. Nothing changes where the queue is empty.
    pub fn drop_oldest(&mut self)
        ensures { self.new ≡ record self.old { queue = drop 1 self.old.queue } }
    {
        let _ = self.take();
    }

    /// Drops the whole queue, and lets fetching go on at this address, or nowhere. Answers how many items were dropped.
    pub fn redirect(&mut self, pc: Option<u32>) -> u32
        ensures dropped { result ≡ length self.old.queue }
        ensures redirected { self.new ≡ record self.old { queue = []; fetch_pc = pc } }
    {
        let dropped = self.queue.len() as u32;
        self.queue.clear();
        self.fetch_pc = pc;
        dropped
    }
}
