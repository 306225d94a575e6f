//! The example of `docs/formats.md`, "An example".

/// The example's text, without its remarks. What it describes is `example` of `specs/Example.antt`
/// (`example_described`).
pub const EXAMPLE: &str =
    "[core]\nfetch_width = 2\nretire_width = 2\nrob = 16\nstations = 8\nloads = 4\nstores = 4\nqueue = 8\n[units]\nalus = 2\nmul_latency = 3\n[predictor]\ncounters = 16\nbtb = 4\n[cache]\nsets = 2\nways = 2\nline = 16\nhit_latency = 2\nmiss_latency = 10\nmshrs = 2\n[ram]\nbase = 65536\nsize = 65536\n[stt]\nmodel = \"spectre\"\n";
