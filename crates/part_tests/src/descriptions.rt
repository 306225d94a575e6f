//! The descriptions by which parts are made.
use machine_desc::{Desc, EXAMPLE, read_desc};
use std::alloc::Global;
use std::test::Fail;

// Small sizes in version 2, with all that it knows, up to the model's name.
const SMALL: &str =
    "version = 2\n[core]\nfetch_width = 2\nretire_width = 2\nrob = 16\nstations = 8\nloads = 4\nstores = 4\nqueue = 8\n[units]\nalus = 2\nmul_latency = 3\n[predictor]\ncounters = 16\nbtb = 4\ndepend = 16\nhistory = 3\nreturns = 2\n[cache]\nsets = 2\nways = 2\nline = 16\nhit_latency = 2\nmiss_latency = 10\nmshrs = 2\nsecond_sets = 1\nsecond_ways = 2\nsecond_latency = 5\n[ram]\nbase = 65536\nsize = 65536\n[stt]\nmodel = \"";

// The largest sizes that there may be.
const LARGEST: &str =
    "version = 2\n[core]\nfetch_width = 4\nretire_width = 4\nrob = 192\nstations = 96\nloads = 64\nstores = 48\nqueue = 32\n[units]\nalus = 4\nmul_latency = 8\n[predictor]\ncounters = 4096\nbtb = 256\ndepend = 1024\nhistory = 12\nreturns = 16\n[cache]\nsets = 256\nways = 8\nline = 64\nhit_latency = 8\nmiss_latency = 200\nmshrs = 8\nsecond_sets = 1024\nsecond_ways = 8\nsecond_latency = 100\n[ram]\nbase = 65536\nsize = 16777216\n[stt]\nmodel = \"spectre\"\n";

// The description of this text.
fn described(alloc: Global, text: &str) -> Result<Desc, Fail> {
    Ok(read_desc(alloc, text.as_bytes())?)
}

/// The small sizes under this model.
pub fn under(alloc: Global, model: &str) -> Result<Desc, Fail> {
    let mut text = String::new(alloc);
    text.push_str(SMALL)?;
    text.push_str(model)?;
    text.push_str("\"\n")?;
    described(alloc, text.as_str())
}

/// The small sizes under `spectre`.
pub fn small(alloc: Global) -> Result<Desc, Fail> {
    under(alloc, "spectre")
}

/// The largest sizes.
pub fn largest(alloc: Global) -> Result<Desc, Fail> {
    described(alloc, LARGEST)
}

/// The description of the worked examples, of version 1.
pub fn example(alloc: Global) -> Result<Desc, Fail> {
    described(alloc, EXAMPLE)
}
