//! Reading a whole links file.

ghost use Rattle.std.specs.Prelude.{◌≡◌, ◌≢◌, IfOk, IfErr, IsSome, Some, Ok, Err, option_and_then, option_map, is_some};
ghost use Rattle.toml.specs.Data.{as_table};
ghost use Rattle.toml.specs.View.{items_view, table_view};
ghost use Rattle.rohc_links.specs.declared.fault.LinksFault.TheVariants.{NoMemory};
ghost use Rattle.rohc_links.specs.Ranges.{read_each};
ghost use Rattle.rohc_links.specs.Links.{version, entries, read_from, read_table, read_text};

use crate::entry::numbered_entry;
use crate::fault::{Key, LinksFault};
use crate::fields::{Field, field_at, has_only, value_at};
use crate::lists::Links;
use crate::version::Version;
use std::alloc::Global;
use toml::{Table, Value};

impl Field for Version {
    ghost field_of = { version };

    fn read(value: &Value) -> Option<Version> {
        match value.as_integer()? {
            1 => Some(Version::One),
            2 => Some(Version::Two),
            _ => None,
        }
    }
}

/// Reads a links file, of version 1 or 2.
///
/// # Errors
///
/// The first fault: of the text, the version, the keys at the top and `link`, and then of the entries in
/// their order. In each entry an unknown key comes first, and then the first wrong key in the order of
/// `Key`. Whether settings are within their limits is judged when a concentrator is made from them.
pub fn read_links(alloc: Global, text: &str) -> Result<Links, LinksFault>
    ensures links { IfOk result (λ links. read_text text.now ≡ Ok links) }
    ensures fault { IfErr result (λ e. e ≢ NoMemory → read_text text.now ≡ Err e) }
{
    match toml::table_from_str(alloc, text) {
        Ok(table) => read_table(alloc, &table),
        Err(e) if e.is_memory() => Err(LinksFault::NoMemory),
        Err(_) => Err(LinksFault::NotToml),
    }
}

/// Reads the table of a links file.
#[tactic(auto, unfolding(crate::specs::Links::read_table))]
fn read_table(alloc: Global, table: &Table) -> Result<Links, LinksFault>
    ensures links { IfOk result (λ links. read_table (table_view table.now) ≡ Ok links) }
    ensures fault { IfErr result (λ e. e ≢ NoMemory → read_table (table_view table.now) ≡ Err e) }
{
    let Some(version) = field_at(table, "version") else {
        return Err(LinksFault::BadVersion);
    };
    if !has_only(table, &["version", "link"]) {
        return Err(LinksFault::UnknownKey { entry: 0 });
    }
    match entries(table) {
        Some(values) => read_entries(alloc, version, values),
        None => Err(LinksFault::BadKey {
            entry: 0,
            key: Key::Link,
        }),
    }
}

/// The values under `link`, if they are tables. There are none if the key is missing.
pub fn entries(table: &Table) -> Option<&[Value]>
    ensures value { option_and_then (λ values. read_each as_table (items_view values.now)) result ≡ entries (table_view table.now) }
    ensures tables { is_some result ≡ is_some (entries (table_view table.now)) }
{
    match value_at(table, Key::Link.name()) {
        Some(value) => {
            let values = value.as_array()?;
            if are_tables(values) {
                Some(values.as_slice())
            } else {
                None
            }
        }
        None => Some(&[]),
    }
}

/// Whether all of the values are tables.
fn are_tables(values: &[Value]) -> bool
    ensures { result ≡ is_some (read_each as_table (items_view values.now)) }
{
    for value in values {
        if !value.is_table() {
            return false;
        }
    }
    true
}

/// Reads the entries, numbered from 1.
fn read_entries(alloc: Global, version: Version, values: &[Value]) -> Result<Links, LinksFault>
    requires { IsSome (read_each as_table (items_view values.now)) }
    ensures links { IfOk result (λ links. option_map (read_from 1 version) (read_each as_table (items_view values.now)) ≡ Some (Ok links)) }
    ensures fault { IfErr result (λ e. e ≢ NoMemory → option_map (read_from 1 version) (read_each as_table (items_view values.now)) ≡ Some (Err e)) }
{
    let mut links = Links::new(alloc);
    for (place, value) in values.iter().enumerate() {
        let table = value.as_table().unwrap();
        let (setting, ports) = numbered_entry(version, place + 1, table)?;
        links.push(setting, ports)?;
    }
    Ok(links)
}
