//! Loads that pass stores, results that are held back, and a machine that protects nothing, worked out by
//! `docs/machine.md`, "Clear", "Issue" and "Safe and visible": in version 2 with four words fetched a cycle, under the
//! descriptions that stand here. Only the phases that are named go.
use crate::flights::{Flight, LINE, LINE_BEFORE, Phase};
use machine_desc::SttModel;
use window_model::{Event, Look, Progress, Way};

/// The example description with 16 bits of dependence.
pub static PASSING: &str =
    "version = 2\n[core]\nfetch_width = 2\nretire_width = 2\nrob = 16\nstations = 8\nloads = 4\nstores = 4\nqueue = 8\n[units]\nalus = 2\nmul_latency = 3\n[predictor]\ncounters = 16\nbtb = 4\ndepend = 16\n[cache]\nsets = 2\nways = 2\nline = 16\nhit_latency = 2\nmiss_latency = 10\nmshrs = 2\n[ram]\nbase = 65536\nsize = 65536\n[stt]\nmodel = \"spectre\"\n";

/// The example description with the results of loads held back.
pub static HOLDING: &str =
    "version = 2\n[core]\nfetch_width = 2\nretire_width = 2\nrob = 16\nstations = 8\nloads = 4\nstores = 4\nqueue = 8\n[units]\nalus = 2\nmul_latency = 3\n[predictor]\ncounters = 16\nbtb = 4\n[cache]\nsets = 2\nways = 2\nline = 16\nhit_latency = 2\nmiss_latency = 10\nmshrs = 2\n[ram]\nbase = 65536\nsize = 65536\n[stt]\nmodel = \"spectre\"\ndefence = \"hold\"\n";

/// The example description with nothing protected.
pub static UNPROTECTED: &str =
    "version = 2\n[core]\nfetch_width = 2\nretire_width = 2\nrob = 16\nstations = 8\nloads = 4\nstores = 4\nqueue = 8\n[units]\nalus = 2\nmul_latency = 3\n[predictor]\ncounters = 16\nbtb = 4\n[cache]\nsets = 2\nways = 2\nline = 16\nhit_latency = 2\nmiss_latency = 10\nmshrs = 2\n[ram]\nbase = 65536\nsize = 65536\n[stt]\nmodel = \"off\"\n";

// addi x5,x2,0; sw x2,0(x5); lw x6,0(x2); addi x7,x0,1
const SHARED: [u32; 4] = [0x0001_0293, 0x0022_a023, 0x0001_2303, 0x0010_0393];

// addi x5,x2,0; sw x2,0(x5); lw x6,-16(x2); addi x7,x0,1
const APART: [u32; 4] = [0x0001_0293, 0x0022_a023, 0xff01_2303, 0x0010_0393];

// addi x5,x2,0; sw x2,1(x5); lw x6,0(x2); addi x7,x0,1
const STORE_FAULTS: [u32; 4] = [0x0001_0293, 0x0022_a0a3, 0x0001_2303, 0x0010_0393];

// addi x5,x2,0; sw x2,0(x5); sw x2,-16(x5); addi x7,x0,1
const TWO_STORES: [u32; 4] = [0x0001_0293, 0x0022_a023, 0xfe22_a823, 0x0010_0393];

// addi x5,x2,0; sw x2,0(x5); addi x7,x5,0; lw x6,0(x7)
const LOAD_LATER: [u32; 4] = [0x0001_0293, 0x0022_a023, 0x0002_8393, 0x0003_a303];

// div x9,x2,x2; beq x9,x0,.+8; lw x6,0(x2); addi x7,x6,1
const BEHIND_A_BRANCH: [u32; 4] = [0x0221_44b3, 0x0004_8463, 0x0001_2303, 0x0013_0393];

// lw x6,0(x2); addi x7,x6,1; addi x0,x0,0 twice
const OLDEST: [u32; 4] = [0x0001_2303, 0x0013_0393, 0x13, 0x13];

// div x9,x2,x2; beq x9,x0,.+8; lw x6,0(x2); beq x6,x0,.+8
const TAINTED_BRANCH: [u32; 4] = [0x0221_44b3, 0x0004_8463, 0x0001_2303, 0x0003_0463];

/// Clear: the oldest store of known address is cleared, one a cycle; the load that passed it and shares a byte with it
/// goes with all that is younger, and its bit is set.
pub static CLEARING: [Flight; 5] = [
    Flight {
        model: SttModel::Spectre,
        words: &SHARED,
        phases: &[
            (
                2,
                Phase::Issue,
                &[
                    Event::Alu(0),
                    Event::Std(1),
                    Event::Ld(2, LINE, Look::Miss),
                    Event::Alu(3),
                ],
            ),
            (3, Phase::Complete, &[Event::Done(0), Event::Done(3)]),
            (3, Phase::Clear, &[]),
            (3, Phase::Issue, &[Event::Agu(1)]),
            (4, Phase::Complete, &[Event::Done(1)]),
            (
                4,
                Phase::Clear,
                &[Event::Clr(1), Event::Vio(2), Event::Dp(2, 1), Event::Sq(2)],
            ),
            (4, Phase::Clear, &[]),
            (
                4,
                Phase::Fetch,
                &[
                    Event::Fet(0x0001_0008),
                    Event::Fet(0x0001_000c),
                    Event::Fet(0x0001_0010),
                ],
            ),
            (
                5,
                Phase::Rename,
                &[
                    Event::Ren(4, 0x0001_0008),
                    Event::Ren(5, 0x0001_000c),
                    Event::Ren(6, 0x0001_0010),
                ],
            ),
        ],
        left: &[
            (Progress::Done, LINE),
            (Progress::Done, 0),
            (Progress::Waiting, 0),
            (Progress::Waiting, 0),
            (Progress::Done, 0),
        ],
    },
    // no byte is shared: the load stays
    Flight {
        model: SttModel::Futuristic,
        words: &APART,
        phases: &[
            (
                2,
                Phase::Issue,
                &[
                    Event::Alu(0),
                    Event::Std(1),
                    Event::Ld(2, LINE_BEFORE, Look::Miss),
                    Event::Alu(3),
                ],
            ),
            (3, Phase::Complete, &[Event::Done(0), Event::Done(3)]),
            (3, Phase::Issue, &[Event::Agu(1)]),
            (4, Phase::Complete, &[Event::Done(1)]),
            (4, Phase::Clear, &[Event::Clr(1)]),
            (5, Phase::Clear, &[]),
        ],
        left: &[
            (Progress::Done, LINE),
            (Progress::Done, 0),
            (Progress::Busy(12), 0),
            (Progress::Done, 1),
        ],
    },
    // a store with a fault is cleared, and violates no load
    Flight {
        model: SttModel::Spectre,
        words: &STORE_FAULTS,
        phases: &[
            (
                2,
                Phase::Issue,
                &[
                    Event::Alu(0),
                    Event::Std(1),
                    Event::Ld(2, LINE, Look::Miss),
                    Event::Alu(3),
                ],
            ),
            (3, Phase::Complete, &[Event::Done(0), Event::Done(3)]),
            (3, Phase::Issue, &[Event::Agu(1)]),
            (4, Phase::Clear, &[Event::Clr(1)]),
        ],
        left: &[
            (Progress::Done, LINE),
            (Progress::Busy(4), 0),
            (Progress::Busy(12), 0),
            (Progress::Done, 1),
        ],
    },
    // one store a cycle, the oldest first
    Flight {
        model: SttModel::Spectre,
        words: &TWO_STORES,
        phases: &[
            (
                2,
                Phase::Issue,
                &[Event::Alu(0), Event::Std(1), Event::Alu(3)],
            ),
            (3, Phase::Complete, &[Event::Done(0), Event::Done(3)]),
            (3, Phase::Issue, &[Event::Agu(1), Event::Std(2)]),
            (4, Phase::Complete, &[Event::Done(1)]),
            (4, Phase::Issue, &[Event::Agu(2)]),
            (5, Phase::Complete, &[Event::Done(2)]),
            (5, Phase::Clear, &[Event::Clr(1)]),
            (6, Phase::Clear, &[Event::Clr(2)]),
        ],
        left: &[
            (Progress::Done, LINE),
            (Progress::Done, 0),
            (Progress::Done, 0),
            (Progress::Done, 1),
        ],
    },
    // a load that issues once the address is known passes nothing: it has the store's bytes
    Flight {
        model: SttModel::Spectre,
        words: &LOAD_LATER,
        phases: &[
            (2, Phase::Issue, &[Event::Alu(0), Event::Std(1)]),
            (3, Phase::Complete, &[Event::Done(0)]),
            (3, Phase::Issue, &[Event::Agu(1), Event::Alu(2)]),
            (4, Phase::Complete, &[Event::Done(1), Event::Done(2)]),
            (4, Phase::Issue, &[Event::LdForward(3)]),
            (5, Phase::Complete, &[Event::Done(3)]),
            (5, Phase::Clear, &[Event::Clr(1)]),
        ],
        left: &[
            (Progress::Done, LINE),
            (Progress::Done, 0),
            (Progress::Done, LINE),
            (Progress::Done, LINE),
        ],
    },
];

/// `hold`: who reads the result of a load waits until the load is visible.
pub static RESULTS_HELD: [Flight; 2] = [
    Flight {
        model: SttModel::Spectre,
        words: &BEHIND_A_BRANCH,
        phases: &[
            (
                2,
                Phase::Issue,
                &[Event::Div(0, 20), Event::Ld(2, LINE, Look::Miss)],
            ),
            (12, Phase::Complete, &[Event::Done(2)]),
            (12, Phase::Issue, &[]),
            (22, Phase::Complete, &[Event::Done(0)]),
            (22, Phase::Issue, &[Event::Alu(1)]),
            (23, Phase::Complete, &[Event::Done(1)]),
            (
                23,
                Phase::Resolve,
                &[Event::Res(1, Way::NotTaken), Event::Bp(1, 0)],
            ),
            (23, Phase::Issue, &[Event::Alu(3)]),
        ],
        left: &[
            (Progress::Done, 1),
            (Progress::Done, 0),
            (Progress::Done, 0),
            (Progress::Busy(24), 1),
        ],
    },
    // a load that is visible as it is done isn't held
    Flight {
        model: SttModel::Futuristic,
        words: &OLDEST,
        phases: &[
            (
                2,
                Phase::Issue,
                &[Event::Ld(0, LINE, Look::Miss), Event::Alu(2), Event::Alu(3)],
            ),
            (12, Phase::Complete, &[Event::Done(0)]),
            (12, Phase::Issue, &[Event::Alu(1)]),
        ],
        left: &[
            (Progress::Done, 0),
            (Progress::Busy(13), 1),
            (Progress::Busy(3), 0),
            (Progress::Busy(3), 0),
        ],
    },
];

/// Where nothing is protected a branch on a loaded value is resolved before an older branch is.
pub static SHOWN: [Flight; 1] = [Flight {
    model: SttModel::Off,
    words: &TAINTED_BRANCH,
    phases: &[
        (
            2,
            Phase::Issue,
            &[Event::Div(0, 20), Event::Ld(2, LINE, Look::Miss)],
        ),
        (12, Phase::Complete, &[Event::Done(2)]),
        (12, Phase::Issue, &[Event::Alu(3)]),
        (13, Phase::Complete, &[Event::Done(3)]),
        (
            13,
            Phase::Resolve,
            &[Event::Res(3, Way::Taken), Event::Bp(3, 2), Event::Sq(0)],
        ),
    ],
    left: &[
        (Progress::Busy(22), 1),
        (Progress::Waiting, 0),
        (Progress::Done, 0),
        (Progress::Done, 1),
    ],
}];
