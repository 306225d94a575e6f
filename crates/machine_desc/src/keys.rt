//! The table of the keys: where each stands and which values it may have.
//!
//! `docs/formats.md`, "Machine descriptions", has the same table with what each key means. A further key is one more
//! variant, its place in `KEYS`, and an arm of `since`, `section`, `name` and `range`.
ghost use Rattle.std.specs.Prelude.{◌≡◌, ◌≤◌, length};
ghost use Rattle.machine_desc.specs.Table.{section_name, row, values_of, where_known, since_of, section_of, name_of, key_text, is_known};
ghost use Rattle.machine_desc.specs.Table.{some_key, some_section, some_top, stands_at};
ghost use Rattle.machine_desc.specs.Version.{most, knows_off};

use crate::Name;
use crate::bounds::{ENTRIES_MAX, LOADS_MAX, QUEUE_MAX, STATIONS_MAX, STORES_MAX};
use std::fmt;

/// A table of a description.
#[derive(Clone, Copy, Debug, PartialEq, Eq)]
pub enum Section {
    Core,
    Units,
    Predictor,
    Cache,
    Ram,
    Stt,
}

/// A key of a description. Its name is that of its table, a dot, and its own, as `core.fetch_width`.
#[derive(Clone, Copy, Debug, PartialEq, Eq)]
pub enum Key {
    CoreFetchWidth,
    CoreRetireWidth,
    CoreRob,
    CoreStations,
    CoreLoads,
    CoreStores,
    CoreQueue,
    UnitsAlus,
    UnitsMulLatency,
    PredictorCounters,
    PredictorBtb,
    CacheSets,
    CacheWays,
    CacheLine,
    CacheHitLatency,
    CacheMissLatency,
    CacheMshrs,
    RamBase,
    RamSize,
    SttModel,
    RamMisaligned,
    PredictorDepend,
    PredictorHistory,
    PredictorReturns,
    CacheSecondSets,
    CacheSecondWays,
    CacheSecondLatency,
    CachePrefetch,
    SttDefence,
}

/// What is asked of a number besides its range.
#[derive(Clone, Copy, Debug, PartialEq, Eq)]
pub(crate) enum Shape {
    Any,
    PowerOfTwo,
    ZeroOrPowerOfTwo,
    MultipleOf16,
}

/// The values that a key may have.
#[derive(Clone, Copy, Debug, PartialEq, Eq)]
pub(crate) enum Values {
    /// The whole numbers from `least` to `most` that have the shape.
    Numbers { least: u32, most: u32, shape: Shape },
    /// The whole numbers from `least` to `most` that have the shape; `least` where the key is left out.
    Optional { least: u32, most: u32, shape: Shape },
    /// The texts that name a model, and whether `off` is one.
    Models { off: bool },
    /// The texts that name a defence, and whether every defence may be named, or `stt` alone; `stt` where the key is
    /// left out.
    Defences { every: bool },
}

/// The newest version that is known: each one from 1 on is.
pub(crate) const NEWEST: i64 = 2;

/// The first version, which a text without one is of.
pub(crate) const FIRST: u32 = 1;

/// The name of the version, which stands in no table.
pub(crate) const VERSION_NAME: &str = "version";

/// The tables, in the order of their keys.
pub(crate) const SECTIONS: [Section; 6] = [
    Section::Core,
    Section::Units,
    Section::Predictor,
    Section::Cache,
    Section::Ram,
    Section::Stt,
];

/// The keys of a description, in order.
pub(crate) const KEYS: [Key; 29] = [
    Key::CoreFetchWidth,
    Key::CoreRetireWidth,
    Key::CoreRob,
    Key::CoreStations,
    Key::CoreLoads,
    Key::CoreStores,
    Key::CoreQueue,
    Key::UnitsAlus,
    Key::UnitsMulLatency,
    Key::PredictorCounters,
    Key::PredictorBtb,
    Key::CacheSets,
    Key::CacheWays,
    Key::CacheLine,
    Key::CacheHitLatency,
    Key::CacheMissLatency,
    Key::CacheMshrs,
    Key::RamBase,
    Key::RamSize,
    Key::SttModel,
    Key::RamMisaligned,
    Key::PredictorDepend,
    Key::PredictorHistory,
    Key::PredictorReturns,
    Key::CacheSecondSets,
    Key::CacheSecondWays,
    Key::CacheSecondLatency,
    Key::CachePrefetch,
    Key::SttDefence,
];

impl Section {
    /// The name of the table in a description.
    pub fn name(self) -> &'static str
        ensures name { result.now ≡ section_name self }
        ensures few { length result.now ≤ 9 }
    {
        match self {
            Section::Core => "core",
            Section::Units => "units",
            Section::Predictor => "predictor",
            Section::Cache => "cache",
            Section::Ram => "ram",
            Section::Stt => "stt",
        }
    }
}

// Whole numbers that have to be there.
fn numbers(least: u32, most: u32, shape: Shape) -> Values
    ensures { result ≡ Values.Numbers least most shape }
{
    Values::Numbers { least, most, shape }
}

// Whole numbers that may be left out.
fn optional(least: u32, most: u32, shape: Shape) -> Values
    ensures { result ≡ Values.Optional least most shape }
{
    Values::Optional { least, most, shape }
}

// A number by the version: the first one in version 1, the second in any later one.
fn most(in_1: u32, in_2: u32, version: u32) -> u32
    ensures { result ≡ most in_1 in_2 version }
{
    if version == 1 { in_1 } else { in_2 }
}

// May the model `off` be named in a version? In each but the first.
pub(crate) fn knows_off(version: u32) -> bool
    ensures { result ≡ knows_off version }
{
    version != 1
}

// The values of a key: the one alone that it has where it is left out, if the key isn't known.
fn where_known(known: bool, values: Values) -> Values
    ensures { result ≡ where_known known values }
{
    match values {
        Values::Optional { least, most, shape } => Values::Optional {
            least,
            most: if known { most } else { least },
            shape,
        },
        Values::Defences { every } => Values::Defences {
            every: every && known,
        },
        Values::Numbers { .. } | Values::Models { .. } => values,
    }
}

impl Key {
    /// The table in which the key stands.
    pub(crate) fn section(self) -> Section
        ensures { result ≡ section_of self }
    {
        match self {
            Key::CoreFetchWidth
            | Key::CoreRetireWidth
            | Key::CoreRob
            | Key::CoreStations
            | Key::CoreLoads
            | Key::CoreStores
            | Key::CoreQueue => Section::Core,
            Key::UnitsAlus | Key::UnitsMulLatency => Section::Units,
            Key::PredictorCounters
            | Key::PredictorBtb
            | Key::PredictorDepend
            | Key::PredictorHistory
            | Key::PredictorReturns => Section::Predictor,
            Key::CacheSets
            | Key::CacheWays
            | Key::CacheLine
            | Key::CacheHitLatency
            | Key::CacheMissLatency
            | Key::CacheMshrs
            | Key::CacheSecondSets
            | Key::CacheSecondWays
            | Key::CacheSecondLatency
            | Key::CachePrefetch => Section::Cache,
            Key::RamBase | Key::RamSize | Key::RamMisaligned => Section::Ram,
            Key::SttModel | Key::SttDefence => Section::Stt,
        }
    }

    /// The key's name in its table.
    pub(crate) fn name(self) -> &'static str
        ensures name { result.now ≡ name_of self }
        ensures few { length result.now ≤ 64 }
    {
        match self {
            Key::CoreFetchWidth => "fetch_width",
            Key::CoreRetireWidth => "retire_width",
            Key::CoreRob => "rob",
            Key::CoreStations => "stations",
            Key::CoreLoads => "loads",
            Key::CoreStores => "stores",
            Key::CoreQueue => "queue",
            Key::UnitsAlus => "alus",
            Key::UnitsMulLatency => "mul_latency",
            Key::PredictorCounters => "counters",
            Key::PredictorBtb => "btb",
            Key::CacheSets => "sets",
            Key::CacheWays => "ways",
            Key::CacheLine => "line",
            Key::CacheHitLatency => "hit_latency",
            Key::CacheMissLatency => "miss_latency",
            Key::CacheMshrs => "mshrs",
            Key::RamBase => "base",
            Key::RamSize => "size",
            Key::SttModel => "model",
            Key::RamMisaligned => "misaligned",
            Key::PredictorDepend => "depend",
            Key::PredictorHistory => "history",
            Key::PredictorReturns => "returns",
            Key::CacheSecondSets => "second_sets",
            Key::CacheSecondWays => "second_ways",
            Key::CacheSecondLatency => "second_latency",
            Key::CachePrefetch => "prefetch",
            Key::SttDefence => "defence",
        }
    }

    // The values that the key may have in a version that knows it.
    fn range(self, version: u32) -> Values
        ensures { result ≡ (row version self).values }
    {
        match self {
            Key::CoreFetchWidth => numbers(1, 4, Shape::Any),
            Key::CoreRetireWidth => numbers(1, 4, Shape::Any),
            Key::CoreRob => numbers(4, most(64, ENTRIES_MAX, version), Shape::Any),
            Key::CoreStations => numbers(2, most(32, STATIONS_MAX, version), Shape::Any),
            Key::CoreLoads => numbers(1, most(16, LOADS_MAX, version), Shape::Any),
            Key::CoreStores => numbers(1, most(16, STORES_MAX, version), Shape::Any),
            Key::CoreQueue => numbers(1, most(16, QUEUE_MAX, version), Shape::Any),
            Key::UnitsAlus => numbers(1, 4, Shape::Any),
            Key::UnitsMulLatency => numbers(1, 8, Shape::Any),
            Key::PredictorCounters => numbers(2, 4096, Shape::PowerOfTwo),
            Key::PredictorBtb => numbers(1, 256, Shape::PowerOfTwo),
            Key::CacheSets => numbers(1, 256, Shape::PowerOfTwo),
            Key::CacheWays => numbers(1, 8, Shape::Any),
            Key::CacheLine => numbers(4, 64, Shape::PowerOfTwo),
            Key::CacheHitLatency => numbers(1, 8, Shape::Any),
            Key::CacheMissLatency => numbers(2, 200, Shape::Any),
            Key::CacheMshrs => numbers(1, 8, Shape::Any),
            Key::RamBase => numbers(0, 4_294_963_200, Shape::MultipleOf16),
            Key::RamSize => numbers(4096, 16_777_216, Shape::MultipleOf16),
            Key::SttModel => Values::Models {
                off: knows_off(version),
            },
            Key::RamMisaligned => optional(0, 1, Shape::Any),
            Key::PredictorDepend => optional(0, 1024, Shape::ZeroOrPowerOfTwo),
            Key::PredictorHistory => optional(0, 12, Shape::Any),
            Key::PredictorReturns => optional(0, 16, Shape::Any),
            Key::CacheSecondSets => optional(0, 1024, Shape::ZeroOrPowerOfTwo),
            Key::CacheSecondWays => optional(1, 8, Shape::Any),
            Key::CacheSecondLatency => optional(2, 100, Shape::Any),
            Key::CachePrefetch => optional(0, 1, Shape::Any),
            Key::SttDefence => Values::Defences { every: true },
        }
    }

    // Since which version the key is there.
    fn since(self) -> u32
        ensures { result ≡ since_of self }
    {
        match self {
            Key::RamMisaligned
            | Key::PredictorDepend
            | Key::PredictorHistory
            | Key::PredictorReturns
            | Key::CacheSecondSets
            | Key::CacheSecondWays
            | Key::CacheSecondLatency
            | Key::CachePrefetch
            | Key::SttDefence => 2,
            _ => 1,
        }
    }

    // Does this version know the key?
    pub(crate) fn is_known(self, version: u32) -> bool
        ensures { result ≡ is_known version self }
    {
        self.since() <= version
    }

    /// The values that the key may have in a version.
    pub(crate) fn values(self, version: u32) -> Values
        ensures { result ≡ values_of version self }
    {
        where_known(self.is_known(version), self.range(version))
    }

    // Does the key, if this version knows it, stand in this table under this name?
    fn stands_at(self, version: u32, section: Section, name: &str) -> bool
        ensures { result ≡ stands_at version section name.now self }
    {
        self.is_known(version) && self.section() == section && self.name() == name
    }

    /// The key's whole name, as `core.fetch_width`.
    pub fn text(self) -> Name
        ensures { result ≡ key_text self }
    {
        Name::in_section(self.section(), self.name().as_bytes())
    }
}

impl fmt::Display for Key {
    fn fmt<W: fmt::Write>(&self, f: &mut fmt::Formatter<W>) -> fmt::Result {
        self.text().fmt(f)
    }
}

// Whether one of the tables has this name.
pub(crate) fn some_section(sections: &[Section], name: &str) -> bool
    ensures { result ≡ some_section sections.now name.now }
{
    for section in sections {
        if section.name() == name {
            return true;
        }
    }
    false
}

// Is the name the version's, or that of one of these tables?
pub(crate) fn some_top(sections: &[Section], name: &str) -> bool
    ensures { result ≡ some_top sections.now name.now }
{
    name == VERSION_NAME || some_section(sections, name)
}

// Whether one of the keys, of those that this version knows, stands in this table under this name.
pub(crate) fn some_key(version: u32, keys: &[Key], section: Section, name: &str) -> bool
    ensures { result ≡ some_key version keys.now section name.now }
{
    for key in keys {
        if key.stands_at(version, section, name) {
            return true;
        }
    }
    false
}
