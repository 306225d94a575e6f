//! What stands in each place of a description.
use crate::asserting::assert_same;
use machine_desc::{Defence, Desc, EXAMPLE, SttModel, bound, read_desc};
use std::alloc::Global;
use std::test::Fail;

// A description of version 2: what is wider there at its most, and no number twice where its range lets it be another.
const LARGE: &str = "\
[core]\n\
fetch_width = 4\n\
retire_width = 3\n\
rob = 192\n\
stations = 96\n\
loads = 64\n\
stores = 48\n\
queue = 32\n\
[units]\n\
alus = 2\n\
mul_latency = 5\n\
[predictor]\n\
counters = 4096\n\
btb = 256\n\
[cache]\n\
sets = 128\n\
ways = 7\n\
line = 16\n\
hit_latency = 6\n\
miss_latency = 200\n\
mshrs = 8\n\
[ram]\n\
base = 65552\n\
size = 1048576\n\
[stt]\n\
model = \"futuristic\"\n\
";

// The numbers of `LARGE`, and each key that may be left out.
const FULL: &str = "\
[core]\n\
fetch_width = 4\n\
retire_width = 3\n\
rob = 192\n\
stations = 96\n\
loads = 64\n\
stores = 48\n\
queue = 32\n\
[units]\n\
alus = 2\n\
mul_latency = 5\n\
[predictor]\n\
history = 11\n\
returns = 13\n\
depend = 512\n\
counters = 4096\n\
btb = 256\n\
[cache]\n\
second_sets = 512\n\
second_ways = 3\n\
second_latency = 71\n\
prefetch = 1\n\
sets = 128\n\
ways = 7\n\
line = 16\n\
hit_latency = 6\n\
miss_latency = 200\n\
mshrs = 8\n\
[ram]\n\
misaligned = 1\n\
base = 65552\n\
size = 1048576\n\
[stt]\n\
model = \"off\"\n\
defence = \"hold\"\n\
";

// The numbers in the order of their keys.
fn numbers(desc: &Desc) -> [u32; 19] {
    [
        desc.core_fetch_width,
        desc.core_retire_width,
        desc.core_rob,
        desc.core_stations,
        desc.core_loads,
        desc.core_stores,
        desc.core_queue,
        desc.units_alus,
        desc.units_mul_latency,
        desc.predictor_counters,
        desc.predictor_btb,
        desc.cache_sets,
        desc.cache_ways,
        desc.cache_line,
        desc.cache_hit_latency,
        desc.cache_miss_latency,
        desc.cache_mshrs,
        desc.ram_base,
        desc.ram_size,
    ]
}

// The numbers that may be left out.
fn others(desc: &Desc) -> [u32; 8] {
    [
        desc.ram_misaligned,
        desc.predictor_history,
        desc.predictor_returns,
        desc.predictor_depend,
        desc.cache_second_sets,
        desc.cache_second_ways,
        desc.cache_second_latency,
        desc.cache_prefetch,
    ]
}

const OF_EXAMPLE: [u32; 19] = [
    2, 2, 16, 8, 4, 4, 8, 2, 3, 16, 4, 2, 2, 16, 2, 10, 2, 65536, 65536,
];

const OF_LARGE: [u32; 19] = [
    4, 3, 192, 96, 64, 48, 32, 2, 5, 4096, 256, 128, 7, 16, 6, 200, 8, 65552, 1048576,
];

const LEFT_OUT: [u32; 8] = [0, 0, 0, 0, 0, 1, 2, 0];

const OF_FULL: [u32; 8] = [1, 11, 13, 512, 512, 3, 71, 1];

// What stands in front, the rest of the text, its numbers, the others, the version, the model and the defence.
type Read = (
    &'static str,
    &'static str,
    [u32; 19],
    [u32; 8],
    (u32, SttModel, Defence),
);

static READ: [Read; 5] = [
    (
        "",
        EXAMPLE,
        OF_EXAMPLE,
        LEFT_OUT,
        (1, SttModel::Spectre, Defence::Stt),
    ),
    (
        "version = 1\n",
        EXAMPLE,
        OF_EXAMPLE,
        LEFT_OUT,
        (1, SttModel::Spectre, Defence::Stt),
    ),
    (
        "version = 2\n",
        EXAMPLE,
        OF_EXAMPLE,
        LEFT_OUT,
        (2, SttModel::Spectre, Defence::Stt),
    ),
    (
        "version = 2\n",
        LARGE,
        OF_LARGE,
        LEFT_OUT,
        (2, SttModel::Futuristic, Defence::Stt),
    ),
    (
        "version = 2\n",
        FULL,
        OF_LARGE,
        OF_FULL,
        (2, SttModel::Off, Defence::Hold),
    ),
];

fn read(alloc: Global, top: &str, rest: &str) -> Result<Desc, Fail> {
    let mut text = String::new(alloc);
    text.push_str(top)?;
    text.push_str(rest)?;
    Ok(read_desc(alloc, text.as_bytes())?)
}

#[test]
fn each_number_stands_in_its_place(rt: HostRuntime) -> Result<(), Fail> {
    for (top, rest, wanted, others_wanted, settings) in &READ {
        let desc = read(rt.alloc(), top, rest)?;
        assert_same(&rt, &numbers(&desc), wanted);
        assert_same(&rt, &others(&desc), others_wanted);
        assert_same(
            &rt,
            &(desc.version, desc.stt_model, desc.stt_defence),
            settings,
        );
    }
    Ok(())
}

#[test]
fn cycles_until_one_more_retires(rt: HostRuntime) -> Result<(), Fail> {
    let alloc = rt.alloc();
    assert_same(&rt, &bound(&read(alloc, "", EXAMPLE)?), &121);
    assert_same(&rt, &bound(&read(alloc, "version = 2\n", LARGE)?), &507);
    Ok(())
}
