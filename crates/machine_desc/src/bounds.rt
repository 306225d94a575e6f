//! The most of each part that a core may have, in any version (`docs/formats.md`, "Machine descriptions").

/// The most entries in flight.
pub const ENTRIES_MAX: u32 = 192;

/// The most entries that wait in stations.
pub const STATIONS_MAX: u32 = 96;

/// The most loads in flight.
pub const LOADS_MAX: u32 = 64;

/// The most stores in flight.
pub const STORES_MAX: u32 = 48;

/// The most fetched instructions that wait to be renamed.
pub const QUEUE_MAX: u32 = 32;
