//! One entry of a links file.

ghost use Rattle.std.specs.Prelude.{◌≡◌, map};
ghost use Rattle.toml.specs.View.{table_view};
ghost use Rattle.rohc_links.specs.Fields.{whole_number, required_field, is_among};
ghost use Rattle.rohc_links.specs.Keys.{name_of};
ghost use Rattle.rohc_links.specs.Entry.{keys, ports_in, ranges_in, idle_in, has_known_keys, entry_in, numbered_entry};

use crate::fault::{Key, LinksFault};
use crate::fields::{field_at, optional_field, required_field};
use crate::ports::Ports;
use crate::version::Version;
use arrayvec::ArrayVec;
use rohc_concentrator::{CidRange, LinkSetting};
use rohc_context::Settings;
use toml::Table;

/// The keys of version 2, in the order in which they are judged. Version 1 has the first thirteen.
const KEYS: [Key; 15] = [
    Key::Number,
    Key::Cid,
    Key::MaxCid,
    Key::Mode,
    Key::K1,
    Key::N1,
    Key::K2,
    Key::N2,
    Key::PacketMs,
    Key::StaticNackMs,
    Key::DeliverPort,
    Key::FeedbackPort,
    Key::RelayPort,
    Key::IdleMs,
    Key::Range,
];

/// The keys of an entry that the version knows, in the order in which they are judged.
pub fn keys(version: Version) -> &'static [Key]
    ensures { result.now ≡ keys version }
{
    match version {
        Version::One => &KEYS[..13],
        Version::Two => &KEYS,
    }
}

/// Whether the version knows all keys of the entry.
#[tactic(auto, unfolding(crate::specs::Entry::has_known_keys))]
fn has_known_keys(version: Version, table: &Table) -> bool
    ensures { result ≡ has_known_keys version (table_view table.now) }
{
    for (name, _) in table {
        if !knows_key(version, name.as_str()) {
            return false;
        }
    }
    true
}

/// Whether one of the keys has this name.
fn is_named(keys: &[Key], name: &str) -> bool
    ensures { result ≡ is_among (map name_of keys.now) name.now }
{
    for key in keys {
        if key.name() == name {
            return true;
        }
    }
    false
}

/// Whether the version knows a key of this name.
pub(crate) fn knows_key(version: Version, name: &str) -> bool
    ensures { result ≡ is_among (map name_of (keys version)) name.now }
{
    is_named(keys(version), name)
}

/// The port at the key, from 1 to 65,535.
#[tactic(auto, using(crate::proofs::FieldLemmas::field_above))]
pub(crate) fn port(table: &Table, key: Key) -> Result<u16, Key>
    ensures { result ≡ required_field (whole_number 1 65535) key (table_view table.now) }
{
    match field_at(table, key.name()) {
        Some(port) if port > 0 => Ok(port),
        _ => Err(key),
    }
}

/// The ports of an entry.
#[tactic(auto, unfolding(crate::specs::Entry::ports_in))]
fn ports_in(table: &Table) -> Result<Ports, Key>
    ensures { result ≡ ports_in (table_view table.now) }
{
    Ok(Ports {
        deliver: port(table, Key::DeliverPort)?,
        feedback: port(table, Key::FeedbackPort)?,
        relay: port(table, Key::RelayPort)?,
    })
}

/// `idle_ms` of an entry: 0 in version 1.
fn idle_in(version: Version, table: &Table) -> Result<u32, Key>
    ensures { result ≡ idle_in version (table_view table.now) }
{
    match version {
        Version::One => Ok(0),
        Version::Two => required_field(table, Key::IdleMs),
    }
}

/// The ranges of an entry: none in version 1, and none if the key is missing.
fn ranges_in(version: Version, table: &Table) -> Result<ArrayVec<CidRange, 8>, Key>
    ensures { result ≡ ranges_in version (table_view table.now) }
{
    match version {
        Version::One => Ok(ArrayVec::new()),
        Version::Two => match optional_field(table, Key::Range)? {
            Some(ranges) => Ok(ranges),
            None => Ok(ArrayVec::new()),
        },
    }
}

/// The setting and the ports of an entry, else its first key that is missing or wrong.
#[tactic(auto, unfolding(crate::specs::Entry::entry_in))]
fn entry_in(version: Version, table: &Table) -> Result<(LinkSetting, Ports), Key>
    ensures { result ≡ entry_in version (table_view table.now) }
{
    let link = required_field(table, Key::Number)?;
    let size = required_field(table, Key::Cid)?;
    let max_cid = required_field(table, Key::MaxCid)?;
    let mode = required_field(table, Key::Mode)?;
    let k1 = required_field(table, Key::K1)?;
    let n1 = required_field(table, Key::N1)?;
    let k2 = required_field(table, Key::K2)?;
    let n2 = required_field(table, Key::N2)?;
    let packet_ms = required_field(table, Key::PacketMs)?;
    let static_nack_ms = required_field(table, Key::StaticNackMs)?;
    let ports = ports_in(table)?;
    let idle_ms = idle_in(version, table)?;
    let ranges = ranges_in(version, table)?;
    let settings = Settings {
        size,
        max_cid,
        mode,
        k1,
        n1,
        k2,
        n2,
        packet_ms,
        static_nack_ms,
        idle_ms,
    };
    let setting = LinkSetting {
        link,
        settings,
        ranges,
    };
    Ok((setting, ports))
}

/// The setting and the ports of the entry with this number, counted from 1.
///
/// # Errors
///
/// Its first fault: `UnknownKey`, else `BadKey` with the first key, in the order of `Key`, that is missing or wrong.
pub fn numbered_entry(
    version: Version,
    entry: usize,
    table: &Table,
) -> Result<(LinkSetting, Ports), LinksFault>
    ensures { result ≡ numbered_entry version entry (table_view table.now) }
{
    if !has_known_keys(version, table) {
        return Err(LinksFault::UnknownKey { entry });
    }
    match entry_in(version, table) {
        Ok(read) => Ok(read),
        Err(key) => Err(LinksFault::BadKey { entry, key }),
    }
}
