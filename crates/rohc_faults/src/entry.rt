//! The faults of one entry.

ghost use Rattle.std.specs.Prelude.{◌≡◌, IfOk};
ghost use Rattle.toml.specs.View.{table_view};
ghost use Rattle.rohc_faults.specs.Entry.{number_of, readable_settings, setting_of, earlier, AreFaultsOf};

use crate::limits::keys_beyond;
use arrayvec::ArrayVec;
use rohc_concentrator::{CidRange, LinkSetting};
use rohc_context::{Mode, Settings};
use rohc_frame::CidKind;
use rohc_links::{Key, Version, field_at, numbered_entry, unfit_keys, unknown_names};
use std::alloc::{AllocError, Global};
use toml::Table;

/// The faults of an entry.
#[derive(Drop)]
pub struct EntryFaults<'a> {
    /// The names that the version doesn't know.
    pub unknown: Vec<&'a str>,
    /// The keys that are missing or wrong, in the order of `Key`.
    pub unfit: Vec<Key>,
    /// The keys whose values are outside their limits, in the order of `Key`.
    pub beyond: Vec<Key>,
    /// The first earlier entry of the same link, counted from 1, if there is one.
    pub earlier: Option<usize>,
}

impl EntryFaults<'_> {
    /// Whether the entry has no fault.
    pub(crate) fn is_none(&self) -> bool {
        self.unknown.is_empty()
            && self.unfit.is_empty()
            && self.beyond.is_empty()
            && self.earlier.is_none()
    }
}

/// The link's number, if it can be read.
pub(crate) fn number_of(table: &Table) -> Option<u16>
    ensures { result ≡ number_of (table_view table.now) }
{
    field_at(table, "number")
}

/// The settings that can be read, and for the others values within their limits.
fn readable_settings(table: &Table) -> Settings
    ensures { result ≡ readable_settings (table_view table.now) }
{
    let size = field_at(table, "cid").unwrap_or(CidKind::Large);
    Settings {
        size,
        max_cid: field_at(table, "max_cid").unwrap_or(size.greatest_cid()),
        mode: field_at(table, "mode").unwrap_or(Mode::U),
        k1: field_at(table, "k1").unwrap_or(1),
        n1: field_at(table, "n1").unwrap_or(64),
        k2: field_at(table, "k2").unwrap_or(1),
        n2: field_at(table, "n2").unwrap_or(64),
        packet_ms: field_at(table, "packet_ms").unwrap_or(1),
        static_nack_ms: field_at(table, "static_nack_ms").unwrap_or(0),
        idle_ms: field_at(table, "idle_ms").unwrap_or(0),
    }
}

/// The setting of an entry, or as much of it as can be read.
fn setting_of(version: Version, entry: usize, table: &Table) -> LinkSetting
    ensures { result ≡ setting_of version entry (table_view table.now) }
{
    match numbered_entry(version, entry, table) {
        Ok((setting, _)) => setting,
        Err(_) => LinkSetting {
            link: number_of(table).unwrap_or(0),
            settings: readable_settings(table),
            ranges: field_at(table, "range").unwrap_or(ArrayVec::new()),
        },
    }
}

/// The first of the entries, counted from 1, with this number.
fn earlier(number: Option<u16>, before: &[Option<u16>]) -> Option<usize>
    ensures { result ≡ earlier number before.now }
{
    let number = number?;
    for (place, other) in before.iter().enumerate() {
        if *other == Some(number) {
            return Some(place + 1);
        }
    }
    None
}

/// The faults of the entry with this number, counted from 1, behind entries with these link numbers.
pub(crate) fn entry_faults<'a>(
    alloc: Global,
    version: Version,
    entry: usize,
    table: &'a Table,
    before: &[Option<u16>],
) -> Result<EntryFaults<'a>, AllocError>
    ensures { IfOk result (AreFaultsOf version before.now entry (table_view table.now)) }
{
    Ok(EntryFaults {
        unknown: unknown_names(alloc, version, table)?,
        unfit: unfit_keys(alloc, version, table)?,
        beyond: keys_beyond(alloc, &setting_of(version, entry, table))?,
        earlier: earlier(number_of(table), before),
    })
}
