//! Loads and stores over two lines, the second level of the cache and the prefetched line, worked out by
//! `docs/machine.md`, "Loads": in version 2 with four words fetched a cycle, under the descriptions that stand here.
//! Only the phases that are named go.
use crate::flights::{Flight, LINE, LINE_BEFORE, Phase, SECOND_BEFORE};
use machine_desc::SttModel;
use window_model::{Event, Look, Progress};

/// The example description with accesses at any address.
pub static ANY_ADDRESS: &str =
    "version = 2\n[core]\nfetch_width = 2\nretire_width = 2\nrob = 16\nstations = 8\nloads = 4\nstores = 4\nqueue = 8\n[units]\nalus = 2\nmul_latency = 3\n[predictor]\ncounters = 16\nbtb = 4\n[cache]\nsets = 2\nways = 2\nline = 16\nhit_latency = 2\nmiss_latency = 10\nmshrs = 2\n[ram]\nbase = 65536\nsize = 65536\nmisaligned = 1\n[stt]\nmodel = \"spectre\"\n";

/// The example description with accesses at any address, one line in the cache, and two in a second level.
pub static TWO_LEVELS: &str =
    "version = 2\n[core]\nfetch_width = 2\nretire_width = 2\nrob = 16\nstations = 8\nloads = 4\nstores = 4\nqueue = 8\n[units]\nalus = 2\nmul_latency = 3\n[predictor]\ncounters = 16\nbtb = 4\n[cache]\nsets = 1\nways = 1\nline = 16\nhit_latency = 2\nmiss_latency = 10\nmshrs = 2\nsecond_sets = 1\nsecond_ways = 2\nsecond_latency = 5\n[ram]\nbase = 65536\nsize = 65536\nmisaligned = 1\n[stt]\nmodel = \"spectre\"\n";

/// The example description with four miss registers, and with the next line prefetched.
pub static NEXT_LINE: &str =
    "version = 2\n[core]\nfetch_width = 2\nretire_width = 2\nrob = 16\nstations = 8\nloads = 4\nstores = 4\nqueue = 8\n[units]\nalus = 2\nmul_latency = 3\n[predictor]\ncounters = 16\nbtb = 4\n[cache]\nsets = 2\nways = 2\nline = 16\nhit_latency = 2\nmiss_latency = 10\nmshrs = 4\nprefetch = 1\n[ram]\nbase = 65536\nsize = 65536\n[stt]\nmodel = \"spectre\"\n";

// The lines before SECOND_BEFORE, one by one.
const THIRD_BEFORE: u32 = 0x0001_ffc0;

const FOURTH_BEFORE: u32 = 0x0001_ffb0;

const FIFTH_BEFORE: u32 = 0x0001_ffa0;

// lw x5,-2(x2); lw x6,-16(x2); lw x7,-18(x2); lw x8,0(x2)
const BOTH_MISS: [u32; 4] = [0xffe1_2283, 0xff01_2303, 0xfee1_2383, 0x0001_2403];

// lw x5,0(x2); lw x6,-18(x2); addi x7,x0,1; lw x8,-2(x2)
const REGISTER_LACKS: [u32; 4] = [0x0001_2283, 0xfee1_2303, 0x0010_0393, 0xffe1_2403];

// sw x2,-2(x2); lw x5,-2(x2); lw x6,-4(x2); lh x7,0(x2)
const STORE_OVER_BOTH: [u32; 4] = [0xfe21_2f23, 0xffe1_2283, 0xffc1_2303, 0x0001_1383];

// sw x2,0(x2); lw x5,-2(x2); lh x6,-1(x2); addi x7,x0,1
const PARTLY_COVERED: [u32; 4] = [0x0021_2023, 0xffe1_2283, 0xfff1_1303, 0x0010_0393];

/// An access over two lines.
pub static OVER_TWO_LINES: [Flight; 4] = [
    // both lines miss, the lower one first; one that is on its way is joined; a load waits where a register lacks
    Flight {
        model: SttModel::Spectre,
        words: &BOTH_MISS,
        phases: &[
            (
                2,
                Phase::Issue,
                &[
                    Event::Ld(0, LINE_BEFORE, Look::Miss),
                    Event::Ld(0, LINE, Look::Miss),
                ],
            ),
            (3, Phase::Issue, &[Event::Ld(1, LINE_BEFORE, Look::Join)]),
            (4, Phase::Issue, &[]),
            (
                12,
                Phase::Fill,
                &[Event::Fill(LINE_BEFORE), Event::Fill(LINE)],
            ),
            (12, Phase::Complete, &[Event::Done(0), Event::Done(1)]),
            (
                12,
                Phase::Issue,
                &[
                    Event::Ld(2, SECOND_BEFORE, Look::Miss),
                    Event::Ld(2, LINE_BEFORE, Look::Hit),
                ],
            ),
            (13, Phase::Issue, &[Event::Ld(3, LINE, Look::Hit)]),
        ],
        left: &[
            (Progress::Done, 0),
            (Progress::Done, 0),
            (Progress::Busy(22), 0),
            (Progress::Busy(15), 0),
        ],
    },
    // one register is too few for two lines that miss; a load is due at the later of its lines, also where that is the
    // lower
    Flight {
        model: SttModel::Spectre,
        words: &REGISTER_LACKS,
        phases: &[
            (
                2,
                Phase::Issue,
                &[Event::Ld(0, LINE, Look::Miss), Event::Alu(2)],
            ),
            (3, Phase::Complete, &[Event::Done(2)]),
            (3, Phase::Issue, &[]),
            (12, Phase::Fill, &[Event::Fill(LINE)]),
            (12, Phase::Complete, &[Event::Done(0)]),
            (
                12,
                Phase::Issue,
                &[
                    Event::Ld(1, SECOND_BEFORE, Look::Miss),
                    Event::Ld(1, LINE_BEFORE, Look::Miss),
                ],
            ),
            (
                13,
                Phase::Issue,
                &[
                    Event::Ld(3, LINE_BEFORE, Look::Join),
                    Event::Ld(3, LINE, Look::Hit),
                ],
            ),
        ],
        left: &[
            (Progress::Done, 0),
            (Progress::Busy(22), 0),
            (Progress::Done, 1),
            (Progress::Busy(22), 0),
        ],
    },
    // a store over two lines covers bytes of both
    Flight {
        model: SttModel::Spectre,
        words: &STORE_OVER_BOTH,
        phases: &[
            (2, Phase::Issue, &[Event::Agu(0), Event::Std(0)]),
            (3, Phase::Complete, &[Event::Done(0)]),
            (3, Phase::Issue, &[Event::LdForward(1)]),
            (4, Phase::Complete, &[Event::Done(1)]),
            (4, Phase::Issue, &[Event::Ld(2, LINE_BEFORE, Look::Miss)]),
            (5, Phase::Issue, &[Event::LdForward(3)]),
            (6, Phase::Complete, &[Event::Done(3)]),
        ],
        left: &[
            (Progress::Done, 0),
            (Progress::Done, LINE),
            (Progress::Busy(14), 0xfff0_0000),
            (Progress::Done, 1),
        ],
    },
    // a line is looked up also where a store covers all the load's bytes in it
    Flight {
        model: SttModel::Spectre,
        words: &PARTLY_COVERED,
        phases: &[
            (
                2,
                Phase::Issue,
                &[Event::Agu(0), Event::Std(0), Event::Alu(3)],
            ),
            (3, Phase::Complete, &[Event::Done(0), Event::Done(3)]),
            (
                3,
                Phase::Issue,
                &[
                    Event::Ld(1, LINE_BEFORE, Look::Miss),
                    Event::Ld(1, LINE, Look::Miss),
                ],
            ),
            (
                4,
                Phase::Issue,
                &[
                    Event::Ld(2, LINE_BEFORE, Look::Join),
                    Event::Ld(2, LINE, Look::Join),
                ],
            ),
        ],
        left: &[
            (Progress::Done, 0),
            (Progress::Busy(13), 0xfff0_0000),
            (Progress::Busy(13), 0xffff_f000),
            (Progress::Done, 1),
        ],
    },
];

// lw x5,0(x2); lw x6,-16(x2); lw x7,0(x2); lw x8,-16(x2)
const FOUND_IN_SECOND: [u32; 4] = [0x0001_2283, 0xff01_2303, 0x0001_2383, 0xff01_2403];

// lw x5,0(x2); lw x6,-32(x2); lw x7,-2(x2); lw x8,0(x2)
const ONE_FROM_EACH: [u32; 4] = [0x0001_2283, 0xfe01_2303, 0xffe1_2383, 0x0001_2403];

/// What the second level has comes after its time.
pub static SECOND_LEVEL: [Flight; 2] = [
    // the cache has lost its line to the next one; the second level has both
    Flight {
        model: SttModel::Spectre,
        words: &FOUND_IN_SECOND,
        phases: &[
            (2, Phase::Issue, &[Event::Ld(0, LINE, Look::Miss)]),
            (3, Phase::Issue, &[Event::Ld(1, LINE_BEFORE, Look::Miss)]),
            (12, Phase::Fill, &[Event::Fill(LINE)]),
            (12, Phase::Complete, &[Event::Done(0)]),
            (13, Phase::Fill, &[Event::Fill(LINE_BEFORE)]),
            (13, Phase::Complete, &[Event::Done(1)]),
            (13, Phase::Issue, &[Event::Ld(2, LINE, Look::Second)]),
            (14, Phase::Issue, &[Event::Ld(3, LINE_BEFORE, Look::Hit)]),
            (16, Phase::Complete, &[Event::Done(3)]),
            (17, Phase::Fill, &[]),
            (18, Phase::Fill, &[Event::Fill(LINE)]),
            (18, Phase::Complete, &[Event::Done(2)]),
        ],
        left: &[
            (Progress::Done, 0),
            (Progress::Done, 0),
            (Progress::Done, 0),
            (Progress::Done, 0),
        ],
    },
    // of two lines the upper one comes from the second level, and the lower one from memory, later
    Flight {
        model: SttModel::Spectre,
        words: &ONE_FROM_EACH,
        phases: &[
            (2, Phase::Issue, &[Event::Ld(0, LINE, Look::Miss)]),
            (3, Phase::Issue, &[Event::Ld(1, SECOND_BEFORE, Look::Miss)]),
            (12, Phase::Fill, &[Event::Fill(LINE)]),
            (12, Phase::Complete, &[Event::Done(0)]),
            (13, Phase::Fill, &[Event::Fill(SECOND_BEFORE)]),
            (13, Phase::Complete, &[Event::Done(1)]),
            (
                13,
                Phase::Issue,
                &[
                    Event::Ld(2, LINE_BEFORE, Look::Miss),
                    Event::Ld(2, LINE, Look::Second),
                ],
            ),
            (14, Phase::Issue, &[Event::Ld(3, LINE, Look::Join)]),
            (18, Phase::Fill, &[Event::Fill(LINE)]),
            (18, Phase::Complete, &[Event::Done(3)]),
            (23, Phase::Fill, &[Event::Fill(LINE_BEFORE)]),
            (23, Phase::Complete, &[Event::Done(2)]),
        ],
        left: &[
            (Progress::Done, 0),
            (Progress::Done, 0),
            (Progress::Done, 0),
            (Progress::Done, 0),
        ],
    },
];

// lw x5,-48(x2); lw x6,-32(x2); lw x7,-28(x2); lw x8,0(x2)
const BEHIND_MISSES: [u32; 4] = [0xfd01_2283, 0xfe01_2303, 0xfe41_2383, 0x0001_2403];

// lw x5,0(x2); lw x6,-16(x2); lw x7,-32(x2); lw x8,-64(x2)
const NEXT_IS_THERE: [u32; 4] = [0x0001_2283, 0xff01_2303, 0xfe01_2383, 0xfc01_2403];

// lw x5,0(x2); lw x6,-48(x2); lw x7,-80(x2); lw x8,-16(x2)
const NO_REGISTER: [u32; 4] = [0x0001_2283, 0xfd01_2303, 0xfb01_2383, 0xff01_2403];

/// When the line behind is prefetched.
pub static PREFETCHING: [Flight; 3] = [
    // behind a miss; behind no join and no hit, and not where memory ends
    Flight {
        model: SttModel::Spectre,
        words: &BEHIND_MISSES,
        phases: &[
            (
                2,
                Phase::Issue,
                &[
                    Event::Ld(0, THIRD_BEFORE, Look::Miss),
                    Event::Pf(SECOND_BEFORE, Look::Miss),
                ],
            ),
            (3, Phase::Issue, &[Event::Ld(1, SECOND_BEFORE, Look::Join)]),
            (
                12,
                Phase::Fill,
                &[Event::Fill(THIRD_BEFORE), Event::Fill(SECOND_BEFORE)],
            ),
            (12, Phase::Complete, &[Event::Done(0), Event::Done(1)]),
            (12, Phase::Issue, &[Event::Ld(2, SECOND_BEFORE, Look::Hit)]),
            (13, Phase::Issue, &[Event::Ld(3, LINE, Look::Miss)]),
            (14, Phase::Complete, &[Event::Done(2)]),
            (22, Phase::Fill, &[]),
            (23, Phase::Fill, &[Event::Fill(LINE)]),
            (23, Phase::Complete, &[Event::Done(3)]),
        ],
        left: &[
            (Progress::Done, 0),
            (Progress::Done, 0),
            (Progress::Done, 0),
            (Progress::Done, 0),
        ],
    },
    // not one that is on its way, nor one that the cache has
    Flight {
        model: SttModel::Spectre,
        words: &NEXT_IS_THERE,
        phases: &[
            (2, Phase::Issue, &[Event::Ld(0, LINE, Look::Miss)]),
            (3, Phase::Issue, &[Event::Ld(1, LINE_BEFORE, Look::Miss)]),
            (12, Phase::Fill, &[Event::Fill(LINE)]),
            (12, Phase::Complete, &[Event::Done(0)]),
            (13, Phase::Fill, &[Event::Fill(LINE_BEFORE)]),
            (13, Phase::Complete, &[Event::Done(1)]),
            (13, Phase::Issue, &[Event::Ld(2, SECOND_BEFORE, Look::Miss)]),
            (
                14,
                Phase::Issue,
                &[
                    Event::Ld(3, FOURTH_BEFORE, Look::Miss),
                    Event::Pf(THIRD_BEFORE, Look::Miss),
                ],
            ),
            (23, Phase::Fill, &[Event::Fill(SECOND_BEFORE)]),
            (23, Phase::Complete, &[Event::Done(2)]),
            (
                24,
                Phase::Fill,
                &[Event::Fill(FOURTH_BEFORE), Event::Fill(THIRD_BEFORE)],
            ),
            (24, Phase::Complete, &[Event::Done(3)]),
        ],
        left: &[
            (Progress::Done, 0),
            (Progress::Done, 0),
            (Progress::Done, 0),
            (Progress::Done, 0),
        ],
    },
    // the last register is for the load
    Flight {
        model: SttModel::Spectre,
        words: &NO_REGISTER,
        phases: &[
            (2, Phase::Issue, &[Event::Ld(0, LINE, Look::Miss)]),
            (
                3,
                Phase::Issue,
                &[
                    Event::Ld(1, THIRD_BEFORE, Look::Miss),
                    Event::Pf(SECOND_BEFORE, Look::Miss),
                ],
            ),
            (4, Phase::Issue, &[Event::Ld(2, FIFTH_BEFORE, Look::Miss)]),
            (5, Phase::Issue, &[]),
            (12, Phase::Fill, &[Event::Fill(LINE)]),
            (12, Phase::Complete, &[Event::Done(0)]),
            (12, Phase::Issue, &[Event::Ld(3, LINE_BEFORE, Look::Miss)]),
            (
                13,
                Phase::Fill,
                &[Event::Fill(THIRD_BEFORE), Event::Fill(SECOND_BEFORE)],
            ),
            (13, Phase::Complete, &[Event::Done(1)]),
        ],
        left: &[
            (Progress::Done, 0),
            (Progress::Done, 0),
            (Progress::Busy(14), 0),
            (Progress::Busy(22), 0),
        ],
    },
];
