//! Programs of four words in flight at once, and what each phase makes of them, worked out by `docs/machine.md`, "A
//! cycle": under the example description with four words fetched a cycle. Those of Issue are of version 1; of version 2
//! `stores.rt` has stores, and `lines.rt` lines. Lines are those of x2, which is 0x1fff0, and before it.
use machine_desc::SttModel;
use window_model::{Event, Look, Progress, Way};

/// A phase.
#[derive(Clone, Copy, Debug, PartialEq, Eq)]
pub enum Phase {
    Fill,
    Complete,
    Resolve,
    Clear,
    Issue,
    Rename,
    Fetch,
}

/// A program, its first four words in flight in cycle 1, and its phases.
#[derive(Clone, Copy)]
pub struct Flight {
    pub model: SttModel,
    pub words: &'static [u32],
    /// A cycle, the phase that goes in it, and the events of the phase.
    pub phases: &'static [(u32, Phase, &'static [Event])],
    /// How far the entries in flight then are, oldest first, and their values, 0 where one hasn't issued.
    pub left: &'static [(Progress, u32)],
}

/// x2's line.
pub const LINE: u32 = 0x0001_fff0;

/// The line before it.
pub const LINE_BEFORE: u32 = 0x0001_ffe0;

/// The line before that.
pub const SECOND_BEFORE: u32 = 0x0001_ffd0;

// div x5,x0,x2; mul x6,x2,x2; addi x7,x0,1; add x8,x5,x6
const TWO_DUE: [u32; 4] = [0x0220_42b3, 0x0221_0333, 0x0010_0393, 0x0062_8433];

/// Complete: who is due in a cycle becomes Done, oldest first, and who awaits them can issue.
pub static COMPLETING: [Flight; 2] = [
    Flight {
        model: SttModel::Spectre,
        words: &TWO_DUE,
        phases: &[
            (
                2,
                Phase::Issue,
                &[Event::Div(0, 3), Event::Mul(1), Event::Alu(2)],
            ),
            (2, Phase::Complete, &[]),
            (3, Phase::Complete, &[Event::Done(2)]),
            (3, Phase::Issue, &[]),
            (4, Phase::Complete, &[]),
        ],
        left: &[
            (Progress::Busy(5), 0),
            (Progress::Busy(5), 0xffc0_0100),
            (Progress::Done, 1),
            (Progress::Waiting, 0),
        ],
    },
    Flight {
        model: SttModel::Spectre,
        words: &TWO_DUE,
        phases: &[
            (
                2,
                Phase::Issue,
                &[Event::Div(0, 3), Event::Mul(1), Event::Alu(2)],
            ),
            (3, Phase::Complete, &[Event::Done(2)]),
            (5, Phase::Complete, &[Event::Done(0), Event::Done(1)]),
            (5, Phase::Issue, &[Event::Alu(3)]),
            (6, Phase::Complete, &[Event::Done(3)]),
        ],
        left: &[
            (Progress::Done, 0),
            (Progress::Done, 0xffc0_0100),
            (Progress::Done, 1),
            (Progress::Done, 0xffc0_0100),
        ],
    },
];

// bne x0,x0,.+8; addi x5,x0,7; addi x6,x0,9; add x7,x5,x6
const NOT_TAKEN: [u32; 4] = [0x0000_1463, 0x0070_0293, 0x0090_0313, 0x0062_83b3];

// beq x0,x0,.+12; addi x0,x0,0 seven times
const TAKEN: [u32; 8] = [0x0000_0663, 0x13, 0x13, 0x13, 0x13, 0x13, 0x13, 0x13];

// auipc x5,0; jalr x0,12(x5); addi x0,x0,0 twice
const JUMPS: [u32; 4] = [0x0000_0297, 0x00c2_8067, 0x13, 0x13];

// div x9,x2,x2; beq x9,x0,.+8; lw x6,0(x2); beq x6,x0,.+8
const TAINTED_BRANCH: [u32; 4] = [0x0221_44b3, 0x0004_8463, 0x0001_2303, 0x0003_0463];

/// Resolve: a right prediction drops nothing; a wrong one drops what is younger and not yet renamed, and fetching goes
/// on at the next address; a branch on a tainted value waits.
pub static RESOLVING: [Flight; 4] = [
    Flight {
        model: SttModel::Spectre,
        words: &NOT_TAKEN,
        phases: &[
            (2, Phase::Issue, &[Event::Alu(0), Event::Alu(1)]),
            (2, Phase::Resolve, &[]),
            (3, Phase::Complete, &[Event::Done(0), Event::Done(1)]),
            (
                3,
                Phase::Resolve,
                &[Event::Res(0, Way::NotTaken), Event::Bp(0, 0)],
            ),
            (4, Phase::Resolve, &[]),
        ],
        left: &[
            (Progress::Done, 0),
            (Progress::Done, 7),
            (Progress::Waiting, 0),
            (Progress::Waiting, 0),
        ],
    },
    Flight {
        model: SttModel::Spectre,
        words: &TAKEN,
        phases: &[
            (
                2,
                Phase::Fetch,
                &[
                    Event::Fet(0x0001_0010),
                    Event::Fet(0x0001_0014),
                    Event::Fet(0x0001_0018),
                    Event::Fet(0x0001_001c),
                ],
            ),
            (2, Phase::Issue, &[Event::Alu(0), Event::Alu(1)]),
            (3, Phase::Complete, &[Event::Done(0), Event::Done(1)]),
            (
                3,
                Phase::Resolve,
                &[Event::Res(0, Way::Taken), Event::Bp(0, 2), Event::Sq(7)],
            ),
            (3, Phase::Rename, &[]),
            (
                3,
                Phase::Fetch,
                &[
                    Event::Fet(0x0001_000c),
                    Event::Fet(0x0001_0010),
                    Event::Fet(0x0001_0014),
                    Event::Fet(0x0001_0018),
                ],
            ),
        ],
        left: &[(Progress::Done, 1)],
    },
    Flight {
        model: SttModel::Spectre,
        words: &JUMPS,
        phases: &[
            (2, Phase::Issue, &[Event::Alu(0), Event::Alu(2)]),
            (3, Phase::Complete, &[Event::Done(0), Event::Done(2)]),
            (3, Phase::Issue, &[Event::Alu(1), Event::Alu(3)]),
            (4, Phase::Complete, &[Event::Done(1), Event::Done(3)]),
            (
                4,
                Phase::Resolve,
                &[
                    Event::Res(1, Way::Jump),
                    Event::Bt(1, 0x0001_000c),
                    Event::Sq(2),
                ],
            ),
            (
                4,
                Phase::Fetch,
                &[Event::Fet(0x0001_000c), Event::Fet(0x0001_0010)],
            ),
            (
                5,
                Phase::Rename,
                &[Event::Ren(4, 0x0001_000c), Event::Ren(5, 0x0001_0010)],
            ),
        ],
        left: &[
            (Progress::Done, 0x0001_0000),
            (Progress::Done, 0x0001_0008),
            (Progress::Waiting, 0),
            (Progress::Done, 0),
        ],
    },
    Flight {
        model: SttModel::Spectre,
        words: &TAINTED_BRANCH,
        phases: &[
            (
                2,
                Phase::Issue,
                &[Event::Div(0, 20), Event::Ld(2, LINE, Look::Miss)],
            ),
            (12, Phase::Complete, &[Event::Done(2)]),
            (12, Phase::Issue, &[Event::Alu(3)]),
            (13, Phase::Complete, &[Event::Done(3)]),
            (13, Phase::Resolve, &[]),
            (22, Phase::Complete, &[Event::Done(0)]),
            (22, Phase::Issue, &[Event::Alu(1)]),
            (23, Phase::Complete, &[Event::Done(1)]),
            (
                23,
                Phase::Resolve,
                &[Event::Res(1, Way::NotTaken), Event::Bp(1, 0)],
            ),
            (
                24,
                Phase::Resolve,
                &[Event::Res(3, Way::Taken), Event::Bp(3, 2), Event::Sq(0)],
            ),
        ],
        left: &[
            (Progress::Done, 1),
            (Progress::Done, 0),
            (Progress::Done, 0),
            (Progress::Done, 1),
        ],
    },
];

// addi x5,x0,7; addi x6,x0,9; add x7,x5,x6; add x8,x7,x7
const SUM: [u32; 4] = [0x0070_0293, 0x0090_0313, 0x0062_83b3, 0x0073_8433];

// lw x5,0(x2); lw x6,-16(x2); lw x7,-32(x2); lw x8,-12(x2)
const MISSES: [u32; 4] = [0x0001_2283, 0xff01_2303, 0xfe01_2383, 0xff41_2403];

// addi x5,x0,-1; sw x5,0(x2); lw x6,0(x2); add x7,x6,x6
const FORWARDS: [u32; 4] = [0xfff0_0293, 0x0051_2023, 0x0001_2303, 0x0063_03b3];

// lw x5,0(x2); lw x6,4(x2); lw x7,8(x2); add x8,x5,x6
const HIT: [u32; 4] = [0x0001_2283, 0x0041_2303, 0x0081_2383, 0x0062_8433];

// lw x5,0(x0); addi x6,x5,1; lw x7,2(x2); add x8,x7,x6
const FAULTS: [u32; 4] = [0x0000_2283, 0x0012_8313, 0x0021_2383, 0x0063_8433];

// div x5,x0,x2; div x6,x2,x2; div x7,x2,x2; add x8,x5,x6
const DIVISIONS: [u32; 4] = [0x0220_42b3, 0x0221_4333, 0x0221_43b3, 0x0062_8433];

// lw x5,0(x0); lw x6,0(x2); add x7,x6,x2; lw x8,-32(x7)
const TAINTED_ADDRESS: [u32; 4] = [0x0000_2283, 0x0001_2303, 0x0023_03b3, 0xfe03_a403];

/// Issue: who begins, and what a load finds.
pub static ISSUING: [Flight; 8] = [
    // a sum: each waits for those before it
    Flight {
        model: SttModel::Spectre,
        words: &SUM,
        phases: &[
            (2, Phase::Issue, &[Event::Alu(0), Event::Alu(1)]),
            (3, Phase::Complete, &[Event::Done(0), Event::Done(1)]),
            (3, Phase::Issue, &[Event::Alu(2)]),
            (4, Phase::Complete, &[Event::Done(2)]),
            (4, Phase::Issue, &[Event::Alu(3)]),
        ],
        left: &[
            (Progress::Done, 7),
            (Progress::Done, 9),
            (Progress::Done, 16),
            (Progress::Busy(5), 32),
        ],
    },
    // misses use up the two miss registers: the third load waits, and with it the fourth, whose line is on its way
    Flight {
        model: SttModel::Spectre,
        words: &MISSES,
        phases: &[
            (2, Phase::Issue, &[Event::Ld(0, LINE, Look::Miss)]),
            (3, Phase::Issue, &[Event::Ld(1, LINE_BEFORE, Look::Miss)]),
            (4, Phase::Issue, &[]),
            (12, Phase::Fill, &[Event::Fill(LINE)]),
            (12, Phase::Complete, &[Event::Done(0)]),
            (12, Phase::Issue, &[Event::Ld(2, SECOND_BEFORE, Look::Miss)]),
            (13, Phase::Fill, &[Event::Fill(LINE_BEFORE)]),
            (13, Phase::Complete, &[Event::Done(1)]),
            (13, Phase::Issue, &[Event::Ld(3, LINE_BEFORE, Look::Hit)]),
        ],
        left: &[
            (Progress::Done, 0),
            (Progress::Done, 0),
            (Progress::Busy(22), 0),
            (Progress::Busy(15), 0),
        ],
    },
    // a load waits for the store before it, and gets all its bytes from it
    Flight {
        model: SttModel::Spectre,
        words: &FORWARDS,
        phases: &[
            (2, Phase::Issue, &[Event::Alu(0)]),
            (3, Phase::Complete, &[Event::Done(0)]),
            (3, Phase::Issue, &[Event::Agu(1)]),
            (4, Phase::Complete, &[Event::Done(1)]),
            (4, Phase::Issue, &[Event::LdForward(2)]),
            (5, Phase::Complete, &[Event::Done(2)]),
            (5, Phase::Issue, &[Event::Alu(3)]),
        ],
        left: &[
            (Progress::Done, 0xffff_ffff),
            (Progress::Done, 0),
            (Progress::Done, 0xffff_ffff),
            (Progress::Busy(6), 0xffff_fffe),
        ],
    },
    // a load joins a miss, and one finds the line once it is there
    Flight {
        model: SttModel::Spectre,
        words: &HIT,
        phases: &[
            (2, Phase::Issue, &[Event::Ld(0, LINE, Look::Miss)]),
            (3, Phase::Issue, &[Event::Ld(1, LINE, Look::Join)]),
            (12, Phase::Fill, &[Event::Fill(LINE)]),
            (12, Phase::Complete, &[Event::Done(0), Event::Done(1)]),
            (
                12,
                Phase::Issue,
                &[Event::Ld(2, LINE, Look::Hit), Event::Alu(3)],
            ),
            (13, Phase::Complete, &[Event::Done(3)]),
            (14, Phase::Complete, &[Event::Done(2)]),
        ],
        left: &[
            (Progress::Done, 0),
            (Progress::Done, 0),
            (Progress::Done, 0),
            (Progress::Done, 0),
        ],
    },
    // loads that fault, outside memory and misaligned, are done after a cycle, with value 0
    Flight {
        model: SttModel::Spectre,
        words: &FAULTS,
        phases: &[
            (2, Phase::Issue, &[Event::LdFault(0)]),
            (3, Phase::Complete, &[Event::Done(0)]),
            (3, Phase::Issue, &[Event::Alu(1), Event::LdFault(2)]),
            (4, Phase::Complete, &[Event::Done(1), Event::Done(2)]),
            (4, Phase::Issue, &[Event::Alu(3)]),
        ],
        left: &[
            (Progress::Done, 0),
            (Progress::Done, 1),
            (Progress::Done, 0),
            (Progress::Busy(5), 1),
        ],
    },
    // one division at a time
    Flight {
        model: SttModel::Spectre,
        words: &DIVISIONS,
        phases: &[
            (2, Phase::Issue, &[Event::Div(0, 3)]),
            (3, Phase::Issue, &[]),
            (4, Phase::Issue, &[]),
            (5, Phase::Complete, &[Event::Done(0)]),
            (5, Phase::Issue, &[Event::Div(1, 20)]),
            (24, Phase::Issue, &[]),
            (25, Phase::Complete, &[Event::Done(1)]),
            (25, Phase::Issue, &[Event::Div(2, 20), Event::Alu(3)]),
        ],
        left: &[
            (Progress::Done, 0),
            (Progress::Done, 1),
            (Progress::Busy(45), 1),
            (Progress::Busy(26), 1),
        ],
    },
    // behind a load that faults the next one isn't visible under this model: what has its value as base waits
    Flight {
        model: SttModel::Futuristic,
        words: &TAINTED_ADDRESS,
        phases: &[
            (2, Phase::Issue, &[Event::LdFault(0)]),
            (3, Phase::Complete, &[Event::Done(0)]),
            (3, Phase::Issue, &[Event::Ld(1, LINE, Look::Miss)]),
            (13, Phase::Complete, &[Event::Done(1)]),
            (13, Phase::Issue, &[Event::Alu(2)]),
            (14, Phase::Complete, &[Event::Done(2)]),
            (14, Phase::Issue, &[]),
        ],
        left: &[
            (Progress::Done, 0),
            (Progress::Done, 0),
            (Progress::Done, LINE),
            (Progress::Waiting, 0),
        ],
    },
    // under this one it is, and the load issues
    Flight {
        model: SttModel::Spectre,
        words: &TAINTED_ADDRESS,
        phases: &[
            (2, Phase::Issue, &[Event::LdFault(0)]),
            (3, Phase::Complete, &[Event::Done(0)]),
            (3, Phase::Issue, &[Event::Ld(1, LINE, Look::Miss)]),
            (13, Phase::Complete, &[Event::Done(1)]),
            (13, Phase::Issue, &[Event::Alu(2)]),
            (14, Phase::Complete, &[Event::Done(2)]),
            (14, Phase::Issue, &[Event::Ld(3, SECOND_BEFORE, Look::Miss)]),
        ],
        left: &[
            (Progress::Done, 0),
            (Progress::Done, 0),
            (Progress::Done, LINE),
            (Progress::Busy(24), 0),
        ],
    },
];
