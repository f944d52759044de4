//! The faults of a whole links file.

ghost use Rattle.std.specs.Prelude.{[], unwrap_or, IfOk, IsSome};
ghost use Rattle.toml.specs.Data.{as_table};
ghost use Rattle.toml.specs.View.{items_view, table_view};
ghost use Rattle.rohc_links.specs.Ranges.{read_each};
ghost use Rattle.rohc_faults.specs.File.{AreEntriesOf, AreFileFaults};

use crate::entry::{EntryFaults, entry_faults, number_of};
use rohc_links::{Version, entries, field_at, names_beside};
use std::alloc::{AllocError, Global};
use toml::{Table, Value};

/// The faults of a links file.
#[derive(Drop)]
pub struct FileFaults<'a> {
    /// Whether `version` is missing or wrong. The entries are then judged by version 2.
    pub version: bool,
    /// The names at the top that no version knows.
    pub unknown: Vec<&'a str>,
    /// Whether `link` is something else than tables.
    pub link: bool,
    /// The faults of each entry.
    pub entries: Vec<EntryFaults<'a>>,
}

impl FileFaults<'_> {
    /// Whether the file has no fault.
    pub fn is_none(&self) -> bool {
        !self.version
            && self.unknown.is_empty()
            && !self.link
            && !self.entries.is_empty()
            && self.entries.len() <= 256
            && self.entries.iter().all(|faults| faults.is_none())
    }
}

/// The faults of the entries, numbered from 1.
fn all_entries<'a>(
    alloc: Global,
    version: Version,
    values: &'a [Value],
) -> Result<Vec<EntryFaults<'a>>, AllocError>
    requires { IsSome (read_each as_table (items_view values.now)) }
    ensures { IfOk result (λ faults. AreEntriesOf version [] 1 (unwrap_or (read_each as_table (items_view values.now)) []) faults.items) }
{
    let mut all = Vec::new(alloc);
    let mut numbers = Vec::new(alloc);
    for (place, value) in values.iter().enumerate() {
        let table = value.as_table().unwrap();
        all.push(entry_faults(alloc, version, place + 1, table, &numbers)?)?;
        numbers.push(number_of(table))?;
    }
    Ok(all)
}

/// All faults of the table of a links file, where `read_links` and `Concentrator::new` tell the first alone.
pub fn all_faults<'a>(alloc: Global, table: &'a Table) -> Result<FileFaults<'a>, AllocError>
    ensures { IfOk result (AreFileFaults (table_view table.now)) }
{
    let version: Option<Version> = field_at(table, "version");
    let unknown = names_beside(alloc, table, &["version", "link"])?;
    match entries(table) {
        Some(values) => Ok(FileFaults {
            version: version.is_none(),
            unknown,
            link: false,
            entries: all_entries(alloc, version.unwrap_or(Version::Two), values)?,
        }),
        None => Ok(FileFaults {
            version: version.is_none(),
            unknown,
            link: true,
            entries: Vec::new(alloc),
        }),
    }
}
