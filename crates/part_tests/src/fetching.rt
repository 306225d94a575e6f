//! A short program whose branch, jumps and end are fetched in turn (`fetch_unit`; `docs/machine.md`, "Fetch").
ghost use Rattle.std.specs.Prelude.{◌≡◌, length};

use crate::asserting::assert_same;
use crate::descriptions::{largest, small};
use byte_ram::Ram;
use elf_loader::{Code, load, segments};
use fetch_unit::Fetch;
use history_pred::History;
use machine_desc::Desc;
use predictor::Predictor;
use rv_types::{Cause, Kind};
use std::alloc::Global;
use std::process::Abort;
use std::test::Fail;
use window_model::{Event, Item, empty_row};

// An image of 16 bytes of code at address 65536: beq x0, x0, +8; jal x0, +8; ebreak; jalr x0, 0(x5).
const FILE: [u8; 100] = [
    0x7f, 0x45, 0x4c, 0x46, 1, 1, 1, 0, 0, 0, 0, 0, 0, 0, 0, 0, 2, 0, 0xf3, 0, 1, 0, 0, 0, 0, 0, 1,
    0, 0x34, 0, 0, 0, 0, 0, 0, 0, 0, 0, 0, 0, 0x34, 0, 0x20, 0, 1, 0, 0, 0, 0, 0, 0, 0, 1, 0, 0, 0,
    0x54, 0, 0, 0, 0, 0, 1, 0, 0, 0, 1, 0, 16, 0, 0, 0, 16, 0, 0, 0, 5, 0, 0, 0, 4, 0, 0, 0, 0x63,
    4, 0, 0, 0x6f, 0, 0x80, 0, 0x73, 0, 0x10, 0, 0x67, 0x80, 2, 0,
];

const BRANCH: u32 = 0x10000;

const JUMP: u32 = 0x10004;

const STOP: u32 = 0x10008;

const RETURN: u32 = 0x1000c;

const OUTSIDE: u32 = 0x10010;

// The code of the image, None where the image is refused.
fn code(alloc: Global, desc: &Desc) -> Result<Option<Code>, Fail> {
    let ram = Ram::new(alloc, desc.ram_base, desc.ram_size, false)?;
    match segments(FILE.as_slice()) {
        Ok(segments) => match load(alloc, &segments, ram) {
            Ok(image) => Ok(Some(image.code)),
            Err(_) => Ok(None),
        },
        Err(_) => Ok(None),
    }
}

// What fetches: the code, the unit, and the predictor and the history by which it goes.
#[derive(Drop)]
struct Front {
    code: Code,
    fetch: Fetch,
    predictor: Predictor,
    history: History,
    ghost same_counters: { history.counters ≡ length predictor.counters },
}

impl Front {
    // The unit of one description, whose queue is empty, over predictor and history of another, which have learnt
    // nothing.
    fn new(
        rt: &impl Abort,
        alloc: Global,
        desc: &Desc,
        other: &Desc,
        start: u32,
    ) -> Result<Front, Fail> {
        let Some(code) = code(alloc, desc)? else {
            panic!(rt; "no code");
        };
        Ok(Front {
            code,
            fetch: Fetch::new(alloc, desc, start)?,
            predictor: Predictor::new(alloc, other)?,
            history: History::new(other),
        })
    }

    // The predictor learns that the branch was taken, and that the JALR went to this address.
    fn learn(&mut self, target: u32) {
        let place = self.history.index(self.history.checkpoint(), BRANCH);
        let _ = self.predictor.learn_branch(place, true);
        let _ = self.predictor.learn_target(RETURN, target);
    }

    // The next cycle fetches these.
    fn assert_fetches(&mut self, rt: &impl Abort, events: &[Event]) {
        let mut row = empty_row();
        self.fetch
            .fetch(&self.code, &self.predictor, &mut self.history, &mut row);
        assert_same(rt, &row.events(), &events);
    }
}

// Where an item comes from, its kind, and where fetching went on.
type Told = Option<(u32, Kind, Option<u32>)>;

fn told(item: Option<Item>) -> Told {
    match item {
        Some(item) => Some((item.pc, item.kind, item.predicted)),
        None => None,
    }
}

// The oldest item as it is told, as it is lent, and as it is taken.
fn oldest(fetch: &mut Fetch) -> [Told; 3] {
    let front = told(fetch.front());
    let lent = told(fetch.oldest().copied());
    [front, lent, told(fetch.take())]
}

#[test]
fn fetching_goes_on_at_the_predicted_next(rt: HostRuntime) -> Result<(), Fail> {
    let desc = small(rt.alloc())?;
    let mut front = Front::new(&rt, rt.alloc(), &desc, &desc, BRANCH)?;
    // The branch is predicted not to be taken, and no target is stored.
    front.assert_fetches(&rt, &[Event::Fet(BRANCH), Event::Fet(JUMP)]);
    front.assert_fetches(&rt, &[Event::Fet(RETURN), Event::Fet(OUTSIDE)]);
    front.assert_fetches(&rt, &[]);
    let items = [
        Some((BRANCH, Kind::Branch, Some(JUMP))),
        Some((JUMP, Kind::Jal, Some(RETURN))),
        Some((RETURN, Kind::Jalr, Some(OUTSIDE))),
        Some((OUTSIDE, Kind::Stop(Cause::outside_code()), None)),
        None,
    ];
    for item in items {
        assert_same(&rt, &oldest(&mut front.fetch), &[item; 3]);
    }
    Ok(())
}

#[test]
fn fetching_goes_on_at_what_was_learnt(rt: HostRuntime) -> Result<(), Fail> {
    let alloc = rt.alloc();
    // Predictor and history are of another description than the fetch unit: the two have as many counters.
    let mut front = Front::new(&rt, alloc, &small(alloc)?, &largest(alloc)?, BRANCH)?;
    front.learn(BRANCH);
    assert_same(&rt, &front.fetch.redirect(Some(RETURN)), &0);
    front.assert_fetches(&rt, &[Event::Fet(RETURN), Event::Fet(BRANCH)]);
    front.assert_fetches(&rt, &[Event::Fet(STOP)]);
    front.fetch.drop_oldest();
    assert!(rt; front.fetch.redirect(None) == 2 && front.fetch.front().is_none());
    Ok(())
}

// A jump and a return go in a circle, four a cycle: eight cycles fill the queue.
#[test]
fn the_largest_queue_has_32_items(rt: HostRuntime) -> Result<(), Fail> {
    let desc = largest(rt.alloc())?;
    let mut front = Front::new(&rt, rt.alloc(), &desc, &desc, JUMP)?;
    front.learn(JUMP);
    let circle = [Event::Fet(JUMP), Event::Fet(RETURN)];
    let twice = [circle[0], circle[1], circle[0], circle[1]];
    for _ in 0..8 {
        front.assert_fetches(&rt, &twice);
    }
    front.assert_fetches(&rt, &[]);
    assert_same(&rt, &front.fetch.redirect(None), &32);
    Ok(())
}
