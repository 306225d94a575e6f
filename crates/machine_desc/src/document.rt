//! What a TOML document has at a name.
ghost use Rattle.std.specs.Prelude.{◌≡◌, option_map};
ghost use Rattle.toml.specs.View.{table_view, view};
ghost use Rattle.toml.specs.Data.{get_member};
ghost use Rattle.machine_desc.specs.Table.{some_key, some_top};
ghost use Rattle.machine_desc.specs.Description.{unknown, version_in, value_at, has_shape, whole_in, number_in, number_or_least, model_in, model_named, defence_in, defence_named};

use crate::keys::{FIRST, NEWEST, Shape, some_key, some_top};
use crate::{Defence, DescFault, Key, Section, SttModel, Subject};
use toml::{Table, Value};

// The least name at the top that is neither the version's nor a table's.
pub(crate) fn unknown_section<'a>(document: &'a Table, sections: &[Section]) -> Option<&'a str>
    ensures { option_map (λ s. s.now) result ≡ unknown (some_top sections.now) (table_view document.now) }
{
    for name in document.keys() {
        if !some_top(sections, name.as_str()) {
            return Some(name.as_str());
        }
    }
    None
}

// The least name of a table that isn't that of a key of this version.
pub(crate) fn unknown_key<'a>(
    version: u32,
    table: &'a Table,
    keys: &[Key],
    section: Section,
) -> Option<&'a str>
    ensures { option_map (λ s. s.now) result ≡ unknown (some_key version keys.now section) (table_view table.now) }
{
    for name in table.keys() {
        if !some_key(version, keys, section, name.as_str()) {
            return Some(name.as_str());
        }
    }
    None
}

// What a table has at a name.
pub(crate) fn member_of<'a>(table: &'a Table, name: &str) -> Option<&'a Value>
    ensures { option_map (λ v. view v.now) result ≡ get_member name.now (table_view table.now) }
{
    table.get(name)
}

// The value of a key, where it and its table are there.
pub(crate) fn value_at<'a>(document: &'a Table, key: Key) -> Option<&'a Value>
    ensures { option_map (λ v. view v.now) result ≡ value_at (table_view document.now) key }
{
    match member_of(document, key.section().name()) {
        Some(value) => match value.as_table() {
            Some(table) => member_of(table, key.name()),
            None => None,
        },
        None => None,
    }
}

// The version of a value.
pub(crate) fn version_in(value: Option<&Value>) -> Result<u32, DescFault>
    ensures { result ≡ version_in (option_map (λ v. view v.now) value.entry) }
{
    match value {
        None => Ok(FIRST),
        Some(value) => match value.as_integer() {
            None => Err(DescFault::Kind(Subject::Version)),
            Some(number) => {
                if 1 <= number && number <= NEWEST {
                    Ok(number as u32)
                } else {
                    Err(DescFault::Version(number))
                }
            }
        },
    }
}

fn has_shape(shape: Shape, number: u32) -> bool
    ensures { result ≡ has_shape shape number }
{
    match shape {
        Shape::Any => true,
        Shape::PowerOfTwo => number.is_power_of_two(),
        Shape::ZeroOrPowerOfTwo => number == 0 || number.is_power_of_two(),
        Shape::MultipleOf16 => number % 16 == 0,
    }
}

// A whole number in a range, and of a shape.
fn whole_in(key: Key, least: u32, most: u32, shape: Shape, number: i64) -> Result<u32, DescFault>
    ensures { result ≡ whole_in key least most shape number }
{
    if (least as i64) <= number && number <= (most as i64) {
        let number = number as u32;
        if has_shape(shape, number) {
            Ok(number)
        } else {
            Err(DescFault::Shape(key))
        }
    } else {
        Err(DescFault::Range(key, number))
    }
}

// The number of a key.
pub(crate) fn number_in(
    key: Key,
    least: u32,
    most: u32,
    shape: Shape,
    value: Option<&Value>,
) -> Result<u32, DescFault>
    ensures { result ≡ number_in key least most shape (option_map (λ v. view v.now) value.entry) }
{
    match value {
        None => Err(DescFault::Missing(key)),
        Some(value) => match value.as_integer() {
            None => Err(DescFault::Kind(Subject::Key(key))),
            Some(number) => whole_in(key, least, most, shape, number),
        },
    }
}

// The number of a key that may be left out.
pub(crate) fn number_or_least(
    key: Key,
    least: u32,
    most: u32,
    shape: Shape,
    value: Option<&Value>,
) -> Result<u32, DescFault>
    ensures { result ≡ number_or_least key least most shape (option_map (λ v. view v.now) value.entry) }
{
    match value {
        None => Ok(least),
        Some(value) => number_in(key, least, most, shape, Some(value)),
    }
}

// The model of this name.
fn model_named(key: Key, off: bool, text: &str) -> Result<SttModel, DescFault>
    ensures { result ≡ model_named key off text.now }
{
    match text {
        "spectre" => Ok(SttModel::Spectre),
        "futuristic" => Ok(SttModel::Futuristic),
        "off" if off => Ok(SttModel::Off),
        _ => Err(DescFault::Kind(Subject::Key(key))),
    }
}

// The model that a key names.
pub(crate) fn model_in(key: Key, off: bool, value: Option<&Value>) -> Result<SttModel, DescFault>
    ensures { result ≡ model_in key off (option_map (λ v. view v.now) value.entry) }
{
    match value {
        None => Err(DescFault::Missing(key)),
        Some(value) => match value.as_str() {
            None => Err(DescFault::Kind(Subject::Key(key))),
            Some(text) => model_named(key, off, text),
        },
    }
}

// The defence of this name.
fn defence_named(key: Key, every: bool, text: &str) -> Result<Defence, DescFault>
    ensures { result ≡ defence_named key every text.now }
{
    match text {
        "stt" => Ok(Defence::Stt),
        "hold" if every => Ok(Defence::Hold),
        "delay" if every => Ok(Defence::Delay),
        _ => Err(DescFault::Kind(Subject::Key(key))),
    }
}

// The defence that a key names, which may be left out.
pub(crate) fn defence_in(key: Key, every: bool, value: Option<&Value>) -> Result<Defence, DescFault>
    ensures { result ≡ defence_in key every (option_map (λ v. view v.now) value.entry) }
{
    match value {
        None => Ok(Defence::Stt),
        Some(value) => match value.as_str() {
            None => Err(DescFault::Kind(Subject::Key(key))),
            Some(text) => defence_named(key, every, text),
        },
    }
}
