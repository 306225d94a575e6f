//! Reads descriptions: looks for the faults in their order, and then takes the numbers.
//!
//! `specs/Description.antt` has the order; `docs/formats.md` tells it.
ghost use Rattle.std.specs.Prelude.{◌≡◌, ◌≢◌, IsTrue, IsUtf8, Ok, Err, IfOk, IfErr, Some, None, map};
ghost use Rattle.toml.specs.View.{table_view};
ghost use Rattle.machine_desc.specs.declared.keys.Key.{Key};
ghost use Rattle.machine_desc.specs.Table.{values_of};
ghost use Rattle.machine_desc.specs.Clean.{IsClean, has_numbers};
ghost use Rattle.machine_desc.specs.Allowed.{MayBe};
ghost use Rattle.machine_desc.specs.Version.{IsKnown, comes_between};
ghost use Rattle.machine_desc.specs.Description.{first, version, top_fault, name_fault, section_fault, sections_fault, key_fault, keys_fault, number, latency_fault, end_fault, registers_fault, second_fault, document_contents, document_fault, OneNumber, setting, setting_of, contents, description_of, Describes};
ghost use Rattle.machine_desc.specs.inner.Description.{ok_without_fault, model, defence};

use crate::document::{
    defence_in, member_of, model_in, number_in, number_or_least, unknown_key, unknown_section,
    value_at, version_in,
};
use crate::keys::{KEYS, SECTIONS, VERSION_NAME, Values, knows_off};
use crate::{Defence, Desc, DescFault, Key, Name, Section, SttModel, Subject};
use std::alloc::Global;
use toml::Table;

// The version of a document.
fn version(document: &Table) -> Result<u32, DescFault>
    ensures { result ≡ version (table_view document.now) }
{
    version_in(member_of(document, VERSION_NAME))
}

// Refuses a name at the top that is neither the version's nor a table's.
#[tactic(auto, unfolding(crate::specs::Description::top_fault))]
fn check_top(document: &Table) -> Result<(), DescFault>
    ensures { result ≡ ok_without_fault (top_fault (table_view document.now)) }
{
    match unknown_section(document, &SECTIONS) {
        None => Ok(()),
        Some(name) => Err(DescFault::Unknown(Name::new(name.as_bytes()))),
    }
}

// Refuses a name of a table that is no key of this version.
fn check_names(version: u32, table: &Table, section: Section) -> Result<(), DescFault>
    ensures { result ≡ ok_without_fault (name_fault version section (table_view table.now)) }
{
    match unknown_key(version, table, &KEYS, section) {
        None => Ok(()),
        Some(name) => Err(DescFault::Unknown(Name::in_section(section, name.as_bytes()))),
    }
}

// What stands at a table's name is a table with no unknown name.
fn check_section(version: u32, document: &Table, section: Section) -> Result<(), DescFault>
    ensures { result ≡ ok_without_fault (section_fault version (table_view document.now) section) }
{
    match member_of(document, section.name()) {
        None => Ok(()),
        Some(value) => match value.as_table() {
            None => Err(DescFault::Kind(Subject::Table(section))),
            Some(table) => check_names(version, table, section),
        },
    }
}

fn check_each_section(version: u32, document: &Table, sections: &[Section]) -> Result<(), DescFault>
    ensures { result ≡ ok_without_fault (first (map (section_fault version (table_view document.now)) sections.now)) }
{
    for section in sections {
        check_section(version, document, *section)?;
    }
    Ok(())
}

// Refuses the first fault of the tables, in their order.
#[tactic(auto, unfolding(crate::specs::Description::sections_fault))]
fn check_sections(version: u32, document: &Table) -> Result<(), DescFault>
    ensures { result ≡ ok_without_fault (sections_fault version (table_view document.now)) }
{
    check_each_section(version, document, &SECTIONS)
}

// A key's value is there, and one that it may have.
#[tactic(auto, unfolding(crate::specs::Description::key_fault))]
fn check_key(version: u32, document: &Table, key: Key) -> Result<(), DescFault>
    ensures { result ≡ ok_without_fault (key_fault version (table_view document.now) key) }
{
    let value = value_at(document, key);
    match key.values(version) {
        Values::Numbers { least, most, shape } => {
            number_in(key, least, most, shape, value)?;
        }
        Values::Optional { least, most, shape } => {
            number_or_least(key, least, most, shape, value)?;
        }
        Values::Models { off } => {
            model_in(key, off, value)?;
        }
        Values::Defences { every } => {
            defence_in(key, every, value)?;
        }
    }
    Ok(())
}

fn check_each_key(version: u32, document: &Table, keys: &[Key]) -> Result<(), DescFault>
    ensures { result ≡ ok_without_fault (first (map (key_fault version (table_view document.now)) keys.now)) }
{
    for key in keys {
        check_key(version, document, *key)?;
    }
    Ok(())
}

// Refuses the first fault of the keys' values, in the order of the keys.
#[tactic(auto, unfolding(crate::specs::Description::keys_fault))]
fn check_keys(version: u32, document: &Table) -> Result<(), DescFault>
    ensures { result ≡ ok_without_fault (keys_fault version (table_view document.now)) }
{
    check_each_key(version, document, &KEYS)
}

// The number of a key.
fn number(version: u32, document: &Table, key: Key) -> Result<u32, DescFault>
    ensures { result ≡ number version (table_view document.now) key }
{
    let value = value_at(document, key);
    match key.values(version) {
        Values::Numbers { least, most, shape } => number_in(key, least, most, shape, value),
        Values::Optional { least, most, shape } => number_or_least(key, least, most, shape, value),
        Values::Models { .. } | Values::Defences { .. } => Err(DescFault::Kind(Subject::Key(key))),
    }
}

// A miss takes longer than a hit.
#[tactic(auto, unfolding(crate::specs::Description::latency_fault))]
fn check_latencies(version: u32, document: &Table) -> Result<(), DescFault>
    ensures { result ≡ ok_without_fault (latency_fault version (table_view document.now)) }
{
    let hit = number(version, document, Key::CacheHitLatency)?;
    let miss = number(version, document, Key::CacheMissLatency)?;
    if hit < miss {
        Ok(())
    } else {
        Err(DescFault::Shape(Key::CacheMissLatency))
    }
}

// RAM ends at or below 2^32.
#[tactic(auto, unfolding(crate::specs::Description::end_fault))]
fn check_end(version: u32, document: &Table) -> Result<(), DescFault>
    ensures { result ≡ ok_without_fault (end_fault version (table_view document.now)) }
{
    let base = number(version, document, Key::RamBase)?;
    let size = number(version, document, Key::RamSize)?;
    if base as u64 + size as u64 <= 1 << 32 {
        Ok(())
    } else {
        Err(DescFault::Shape(Key::RamSize))
    }
}

// Where an access may lie in two lines there are two miss registers.
#[tactic(auto, unfolding(crate::specs::Description::registers_fault))]
fn check_registers(version: u32, document: &Table) -> Result<(), DescFault>
    ensures { result ≡ ok_without_fault (registers_fault version (table_view document.now)) }
{
    let misaligned = number(version, document, Key::RamMisaligned)?;
    let mshrs = number(version, document, Key::CacheMshrs)?;
    if 2 * misaligned as u64 <= mshrs as u64 {
        Ok(())
    } else {
        Err(DescFault::Shape(Key::CacheMshrs))
    }
}

// Where there is a second level, its line comes later than a hit and sooner than from memory.
fn comes_between(second_sets: u32, hit: u32, second: u32, miss: u32) -> bool
    ensures { result ≡ comes_between second_sets hit second miss }
{
    second_sets == 0 || hit < second && second < miss
}

// A line of the second level comes between a hit and a miss.
#[tactic(auto, unfolding(crate::specs::Description::second_fault))]
fn check_second(version: u32, document: &Table) -> Result<(), DescFault>
    ensures { result ≡ ok_without_fault (second_fault version (table_view document.now)) }
{
    let second_sets = number(version, document, Key::CacheSecondSets)?;
    let hit = number(version, document, Key::CacheHitLatency)?;
    let second = number(version, document, Key::CacheSecondLatency)?;
    let miss = number(version, document, Key::CacheMissLatency)?;
    if comes_between(second_sets, hit, second, miss) {
        Ok(())
    } else {
        Err(DescFault::Shape(Key::CacheSecondLatency))
    }
}

// The first fault of a document of this version.
#[tactic(auto, unfolding(crate::specs::Description::document_fault))]
fn check_document(version: u32, document: &Table) -> Result<(), DescFault>
    ensures { result ≡ ok_without_fault (document_fault version (table_view document.now)) }
{
    check_top(document)?;
    check_sections(version, document)?;
    check_keys(version, document)?;
    check_latencies(version, document)?;
    check_end(version, document)?;
    check_registers(version, document)?;
    check_second(version, document)
}

// The number of a key without fault.
fn clean_number(version: u32, document: &Table, key: Key) -> u32
    requires clean { key_fault version (table_view document.now) key ≡ None }
    requires whole { IsTrue (has_numbers (values_of version key)) }
    ensures number { number version (table_view document.now) key ≡ Ok result }
    ensures set { setting version (table_view document.now) key ≡ Ok (OneNumber result) }
    ensures fits { MayBe version key result }
{
    match number(version, document, key) {
        Ok(number) => number,
        Err(_) => unreachable!(),
    }
}

// The description of a document of this version without fault.
fn desc(version: u32, document: &Table, stt_model: SttModel, stt_defence: Defence) -> Desc
    requires known { IsKnown version }
    requires clean { IsClean version (table_view document.now) }
    requires model { model version (table_view document.now) ≡ Ok stt_model }
    requires defence { defence version (table_view document.now) ≡ Ok stt_defence }
    ensures version { result.version ≡ version }
    ensures keys { (key : Key) → setting version (table_view document.now) key ≡ Ok (setting_of result key) }
{
    Desc {
        version,
        core_fetch_width: clean_number(version, document, Key::CoreFetchWidth),
        core_retire_width: clean_number(version, document, Key::CoreRetireWidth),
        core_rob: clean_number(version, document, Key::CoreRob),
        core_stations: clean_number(version, document, Key::CoreStations),
        core_loads: clean_number(version, document, Key::CoreLoads),
        core_stores: clean_number(version, document, Key::CoreStores),
        core_queue: clean_number(version, document, Key::CoreQueue),
        units_alus: clean_number(version, document, Key::UnitsAlus),
        units_mul_latency: clean_number(version, document, Key::UnitsMulLatency),
        predictor_counters: clean_number(version, document, Key::PredictorCounters),
        predictor_btb: clean_number(version, document, Key::PredictorBtb),
        cache_sets: clean_number(version, document, Key::CacheSets),
        cache_ways: clean_number(version, document, Key::CacheWays),
        cache_line: clean_number(version, document, Key::CacheLine),
        cache_hit_latency: clean_number(version, document, Key::CacheHitLatency),
        cache_miss_latency: clean_number(version, document, Key::CacheMissLatency),
        cache_mshrs: clean_number(version, document, Key::CacheMshrs),
        ram_base: clean_number(version, document, Key::RamBase),
        ram_size: clean_number(version, document, Key::RamSize),
        stt_model,
        stt_defence,
        ram_misaligned: clean_number(version, document, Key::RamMisaligned),
        predictor_depend: clean_number(version, document, Key::PredictorDepend),
        predictor_history: clean_number(version, document, Key::PredictorHistory),
        predictor_returns: clean_number(version, document, Key::PredictorReturns),
        cache_second_sets: clean_number(version, document, Key::CacheSecondSets),
        cache_second_ways: clean_number(version, document, Key::CacheSecondWays),
        cache_second_latency: clean_number(version, document, Key::CacheSecondLatency),
        cache_prefetch: clean_number(version, document, Key::CachePrefetch),
    }
}

// The model of a document.
fn model(version: u32, document: &Table) -> Result<SttModel, DescFault>
    ensures { result ≡ model version (table_view document.now) }
{
    let value = value_at(document, Key::SttModel);
    model_in(Key::SttModel, knows_off(version), value)
}

// The defence of a document.
fn defence(version: u32, document: &Table) -> Result<Defence, DescFault>
    ensures { result ≡ defence version (table_view document.now) }
{
    let value = value_at(document, Key::SttDefence);
    defence_in(Key::SttDefence, Key::SttDefence.is_known(version), value)
}

// The description of a document, or its first fault.
fn read_document(document: &Table) -> Result<Desc, DescFault>
    ensures ok { IfOk result (λ d. document_contents (table_view document.now) ≡ Ok (contents d)) }
    ensures err { IfErr result (λ e. document_contents (table_view document.now) ≡ Err e) }
{
    let version = version(document)?;
    check_document(version, document)?;
    let stt_model = model(version, document)?;
    let stt_defence = defence(version, document)?;
    Ok(desc(version, document, stt_model, stt_defence))
}

/// Reads a description: the text's description, or its first fault. It takes at most 65,536 bytes by its caller's rule,
/// and needs no such bound itself.
///
/// # Errors
///
/// The first fault of the text in the order that `docs/formats.md` gives; `NoMemory` where there is no memory to read
/// it, and never where the bytes aren't UTF-8, since that is found before memory is taken.
#[tactic(auto, unfolding(crate::specs::Description::description_of))]
pub fn read_desc(alloc: Global, bytes: &[u8]) -> Result<Desc, DescFault>
    ensures ok { IfOk result (Describes bytes.now) }
    ensures err { IfErr result (λ e. e ≢ DescFault.NoMemory → description_of bytes.now ≡ Err e) }
    ensures wanting { IfErr result (λ e. e ≡ DescFault.NoMemory → IsUtf8 bytes.now) }
{
    let text = match std::str::from_utf8(bytes) {
        Ok(text) => text,
        Err(_) => return Err(DescFault::Syntax),
    };
    match toml::table_from_str(alloc, text) {
        Ok(document) => read_document(&document),
        Err(error) => {
            if error.is_memory() {
                Err(DescFault::NoMemory)
            } else {
                Err(DescFault::Syntax)
            }
        }
    }
}
