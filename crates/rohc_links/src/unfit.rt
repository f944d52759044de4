//! All that is wrong with an entry of a links file, and not its first fault alone.

ghost use Rattle.std.specs.Prelude.{◌≡◌, map, IfOk};
ghost use Rattle.toml.specs.View.{table_view};
ghost use Rattle.rohc_links.specs.Keys.{name_of};
ghost use Rattle.rohc_links.specs.Entry.{keys};
ghost use Rattle.rohc_links.specs.Unfit.{is_fit, unfit_keys, names_beside};

use crate::entry::{keys, knows_key, port};
use crate::fault::Key;
use crate::fields::{is_among, optional_field, required_field};
use crate::version::Version;
use arrayvec::ArrayVec;
use rohc_concentrator::CidRange;
use rohc_context::Mode;
use rohc_frame::CidKind;
use std::alloc::{AllocError, Global};
use toml::Table;

/// Whether the table has at the key what an entry needs there.
fn is_fit(table: &Table, key: Key) -> bool
    ensures { result ≡ is_fit key (table_view table.now) }
{
    match key {
        Key::Link => true,
        Key::Cid => required_field::<CidKind>(table, key).is_ok(),
        Key::Mode => required_field::<Mode>(table, key).is_ok(),
        Key::Number | Key::MaxCid => required_field::<u16>(table, key).is_ok(),
        Key::K1 | Key::N1 | Key::K2 | Key::N2 => required_field::<u8>(table, key).is_ok(),
        Key::PacketMs | Key::StaticNackMs | Key::IdleMs => required_field::<u32>(
            table, key,
        ).is_ok(),
        Key::DeliverPort | Key::FeedbackPort | Key::RelayPort => port(table, key).is_ok(),
        Key::Range => optional_field::<ArrayVec<CidRange, 8>>(table, key).is_ok(),
    }
}

/// The keys of an entry that are missing or wrong, in the order of `Key`.
pub fn unfit_keys(alloc: Global, version: Version, table: &Table) -> Result<Vec<Key>, AllocError>
    ensures { IfOk result (λ unfit. unfit.items ≡ unfit_keys version (table_view table.now)) }
{
    let mut unfit = Vec::new(alloc);
    for key in keys(version) {
        if !is_fit(table, *key) {
            unfit.push(*key)?;
        }
    }
    Ok(unfit)
}

/// The names of an entry that its version doesn't know, in the order of their octets.
pub fn unknown_names<'a>(
    alloc: Global,
    version: Version,
    table: &'a Table,
) -> Result<Vec<&'a str>, AllocError>
    ensures { IfOk result (λ names. map (λ s. s.now) names.items ≡ names_beside (map name_of (keys version)) (table_view table.now)) }
{
    let mut unknown = Vec::new(alloc);
    for (name, _) in table {
        if !knows_key(version, name.as_str()) {
            unknown.push(name.as_str())?;
        }
    }
    Ok(unknown)
}

/// The names of a table that aren't among these, in the order of their octets.
pub fn names_beside<'a>(
    alloc: Global,
    table: &'a Table,
    names: &[&str],
) -> Result<Vec<&'a str>, AllocError>
    ensures { IfOk result (λ others. map (λ s. s.now) others.items ≡ names_beside (map (λ s. s.now) names.now) (table_view table.now)) }
{
    let mut others = Vec::new(alloc);
    for (name, _) in table {
        if !is_among(name.as_str(), names) {
            others.push(name.as_str())?;
        }
    }
    Ok(others)
}
