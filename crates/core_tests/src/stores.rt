//! Stores of version 2 in flight, which issue in two parts, and loads behind them, worked out by `docs/machine.md`,
//! "Issue" and "Loads": under the example description in version 2 with four words fetched a cycle.
use crate::flights::{Flight, LINE, LINE_BEFORE, Phase};
use machine_desc::SttModel;
use window_model::{Event, Look, Progress};

// div x5,x2,x2; sh x5,2(x2); lb x6,1(x2); lw x7,0(x2)
const DATA_LATE: [u32; 4] = [0x0221_42b3, 0x0051_1123, 0x0011_0303, 0x0001_2383];

// mul x6,x0,x0; add x6,x6,x2; sw x2,0(x6); lw x10,-16(x2)
const ADDRESS_LATE: [u32; 4] = [0x0200_0333, 0x0023_0333, 0x0023_2023, 0xff01_2503];

// sw x2,0(x2); sw x2,4(x2); lw x5,4(x2); addi x6,x0,1
const AT_ONCE: [u32; 4] = [0x0021_2023, 0x0021_2223, 0x0041_2283, 0x0010_0313];

// div x5,x2,x2; sw x5,2(x2); lw x6,0(x2); sw x5,0(x2); lw x7,2(x2)
const FAULTS: [u32; 5] = [
    0x0221_42b3,
    0x0051_2123,
    0x0001_2303,
    0x0051_2023,
    0x0021_2383,
];

// div x9,x2,x2; beq x9,x0,.+8; lw x6,0(x2); add x6,x6,x2; sw x9,0(x6); lw x7,-16(x2)
const TAINTED: [u32; 6] = [
    0x0221_44b3,
    0x0004_8463,
    0x0001_2303,
    0x0023_0333,
    0x0093_2023,
    0xff01_2383,
];

// div x5,x2,x2; sw x5,0(x2); addi x6,x5,0 six times; addi x0,x0,0 four times
const CROWD: [u32; 12] = [
    0x0221_42b3,
    0x0051_2023,
    0x0002_8313,
    0x0002_8313,
    0x0002_8313,
    0x0002_8313,
    0x0002_8313,
    0x0002_8313,
    0x13,
    0x13,
    0x13,
    0x13,
];

/// When each part of a store issues, and which loads go then.
pub static STORES: [Flight; 6] = [
    // the data comes late: a load that shares no byte with the store goes, one that shares a byte waits for the data
    Flight {
        model: SttModel::Spectre,
        words: &DATA_LATE,
        phases: &[
            (2, Phase::Issue, &[Event::Div(0, 20), Event::Agu(1)]),
            (3, Phase::Complete, &[]),
            (3, Phase::Issue, &[Event::Ld(2, LINE, Look::Miss)]),
            (4, Phase::Issue, &[]),
            (13, Phase::Fill, &[Event::Fill(LINE)]),
            (13, Phase::Complete, &[Event::Done(2)]),
            (13, Phase::Issue, &[]),
            (22, Phase::Complete, &[Event::Done(0)]),
            (22, Phase::Issue, &[Event::Std(1)]),
            (23, Phase::Complete, &[Event::Done(1)]),
            (23, Phase::Issue, &[Event::Ld(3, LINE, Look::Hit)]),
        ],
        left: &[
            (Progress::Done, 1),
            (Progress::Done, 0),
            (Progress::Done, 0),
            (Progress::Busy(25), 0x0001_0000),
        ],
    },
    // the address comes late: a load waits for it, though it shares no byte
    Flight {
        model: SttModel::Spectre,
        words: &ADDRESS_LATE,
        phases: &[
            (2, Phase::Issue, &[Event::Mul(0), Event::Std(2)]),
            (3, Phase::Complete, &[]),
            (3, Phase::Issue, &[]),
            (5, Phase::Complete, &[Event::Done(0)]),
            (5, Phase::Issue, &[Event::Alu(1)]),
            (6, Phase::Complete, &[Event::Done(1)]),
            (6, Phase::Issue, &[Event::Agu(2)]),
            (7, Phase::Complete, &[Event::Done(2)]),
            (7, Phase::Issue, &[Event::Ld(3, LINE_BEFORE, Look::Miss)]),
        ],
        left: &[
            (Progress::Done, 0),
            (Progress::Done, LINE),
            (Progress::Done, 0),
            (Progress::Busy(17), 0),
        ],
    },
    // both parts are there at once, and there is one port of each
    Flight {
        model: SttModel::Spectre,
        words: &AT_ONCE,
        phases: &[
            (
                2,
                Phase::Issue,
                &[Event::Agu(0), Event::Std(0), Event::Alu(3)],
            ),
            (3, Phase::Complete, &[Event::Done(0), Event::Done(3)]),
            (3, Phase::Issue, &[Event::Agu(1), Event::Std(1)]),
            (4, Phase::Complete, &[Event::Done(1)]),
            (4, Phase::Issue, &[Event::LdForward(2)]),
        ],
        left: &[
            (Progress::Done, 0),
            (Progress::Done, 0),
            (Progress::Busy(5), LINE),
            (Progress::Done, 1),
        ],
    },
    // without data a store with a fault covers no byte, and no byte of a load with a fault is covered
    Flight {
        model: SttModel::Spectre,
        words: &FAULTS,
        phases: &[
            (2, Phase::Issue, &[Event::Div(0, 20), Event::Agu(1)]),
            (
                2,
                Phase::Fetch,
                &[Event::Fet(0x0001_0010), Event::Fet(0x0001_0014)],
            ),
            (
                2,
                Phase::Rename,
                &[Event::Ren(4, 0x0001_0010), Event::Ren(5, 0x0001_0014)],
            ),
            (
                3,
                Phase::Issue,
                &[Event::Ld(2, LINE, Look::Miss), Event::Agu(3)],
            ),
            (4, Phase::Issue, &[Event::LdFault(4)]),
            (5, Phase::Complete, &[Event::Done(4)]),
        ],
        left: &[
            (Progress::Busy(22), 1),
            (Progress::Waiting, 0),
            (Progress::Busy(13), 0),
            (Progress::Waiting, 0),
            (Progress::Done, 0),
            (Progress::Done, 0),
        ],
    },
    // a load waits behind a tainted address while the data isn't there, though it shares no byte
    Flight {
        model: SttModel::Spectre,
        words: &TAINTED,
        phases: &[
            (
                2,
                Phase::Issue,
                &[Event::Div(0, 20), Event::Ld(2, LINE, Look::Miss)],
            ),
            (
                2,
                Phase::Fetch,
                &[
                    Event::Fet(0x0001_0010),
                    Event::Fet(0x0001_0014),
                    Event::Fet(0x0001_0018),
                ],
            ),
            (
                2,
                Phase::Rename,
                &[
                    Event::Ren(4, 0x0001_0010),
                    Event::Ren(5, 0x0001_0014),
                    Event::Ren(6, 0x0001_0018),
                ],
            ),
            (12, Phase::Complete, &[Event::Done(2)]),
            (12, Phase::Issue, &[Event::Alu(3)]),
            (13, Phase::Complete, &[Event::Done(3)]),
            (13, Phase::Issue, &[Event::Agu(4)]),
            (14, Phase::Issue, &[]),
            (22, Phase::Complete, &[Event::Done(0)]),
            (22, Phase::Issue, &[Event::Alu(1), Event::Std(4)]),
            (23, Phase::Complete, &[Event::Done(1), Event::Done(4)]),
            (23, Phase::Issue, &[Event::Ld(5, LINE_BEFORE, Look::Miss)]),
        ],
        left: &[
            (Progress::Done, 1),
            (Progress::Done, 0),
            (Progress::Done, 0),
            (Progress::Done, LINE),
            (Progress::Done, 0),
            (Progress::Busy(33), 0),
            (Progress::Done, 0),
        ],
    },
    // of eight stations one is free once the division has left it, and the store's with its second part
    Flight {
        model: SttModel::Spectre,
        words: &CROWD,
        phases: &[
            (
                1,
                Phase::Fetch,
                &[
                    Event::Fet(0x0001_0010),
                    Event::Fet(0x0001_0014),
                    Event::Fet(0x0001_0018),
                    Event::Fet(0x0001_001c),
                ],
            ),
            (
                1,
                Phase::Rename,
                &[
                    Event::Ren(4, 0x0001_0010),
                    Event::Ren(5, 0x0001_0014),
                    Event::Ren(6, 0x0001_0018),
                    Event::Ren(7, 0x0001_001c),
                ],
            ),
            (
                1,
                Phase::Fetch,
                &[
                    Event::Fet(0x0001_0020),
                    Event::Fet(0x0001_0024),
                    Event::Fet(0x0001_0028),
                    Event::Fet(0x0001_002c),
                ],
            ),
            (1, Phase::Rename, &[]),
            (2, Phase::Issue, &[Event::Div(0, 20), Event::Agu(1)]),
            (2, Phase::Rename, &[Event::Ren(8, 0x0001_0020)]),
            (22, Phase::Complete, &[Event::Done(0)]),
            (
                22,
                Phase::Issue,
                &[Event::Std(1), Event::Alu(2), Event::Alu(3)],
            ),
            (
                22,
                Phase::Rename,
                &[
                    Event::Ren(9, 0x0001_0024),
                    Event::Ren(10, 0x0001_0028),
                    Event::Ren(11, 0x0001_002c),
                ],
            ),
        ],
        left: &[
            (Progress::Done, 1),
            (Progress::Busy(23), 0),
            (Progress::Busy(23), 1),
            (Progress::Busy(23), 1),
            (Progress::Waiting, 0),
            (Progress::Waiting, 0),
            (Progress::Waiting, 0),
            (Progress::Waiting, 0),
            (Progress::Waiting, 0),
            (Progress::Waiting, 0),
            (Progress::Waiting, 0),
            (Progress::Waiting, 0),
        ],
    },
];
