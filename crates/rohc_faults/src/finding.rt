//! The faults of a links file, one by one, as they are told.

use crate::entry::EntryFaults;
use crate::file::FileFaults;
use crate::places::Places;
use rohc_links::{Key, Version, entries, field_at, keys};
use rohc_text::{error_line, nearest_name};
use std::alloc::{AllocError, Global};
use toml::de::Error;
use toml::{Table, Value};

/// What is wrong at a place of a links file.
#[derive(Clone, Copy)]
pub enum Wrong<'a> {
    /// The name is none of the keys; this one is the nearest, if one is near.
    Unknown(Option<&'static str>),
    /// The name is a key of version 2, and the file has version 1.
    Newer,
    /// The value is missing or wrong.
    Unfit,
    /// The value is outside its limits.
    Beyond,
    /// The link is that of an earlier entry.
    Twice {
        /// The number of that entry, counted from 1.
        earlier: usize,
        /// A number that no entry has, above this one's.
        free: Option<u16>,
    },
    /// The text isn't a TOML document.
    NoToml {
        /// The text.
        text: &'a str,
        /// Why it is none.
        error: Error,
    },
    /// `link` is one table, and not an array of tables.
    OneTable,
    /// There are no entries, or too many.
    Count,
}

/// A fault of a links file.
#[derive(Clone, Copy)]
pub struct Finding<'a> {
    /// The line, counted from 1, if it is known.
    pub line: Option<usize>,
    /// The entry, counted from 1; 0 is the top of the file.
    pub entry: usize,
    /// The link's number, if it can be read.
    pub link: Option<u16>,
    /// The name at which it is.
    pub name: &'a str,
    /// What stands there, if something does.
    pub value: Option<&'a Value>,
    /// What is wrong.
    pub wrong: Wrong<'a>,
    /// What may stand there.
    pub may: &'static str,
}

/// What may stand at a key.
fn may_stand(key: Key) -> &'static str {
    match key {
        Key::Link => "1 to 256 tables [[link]]",
        Key::Number => "a number from 0 to 65535",
        Key::Cid => "\"small\" or \"large\"",
        Key::MaxCid => "a number from 0 to 15 for small CIDs, 0 to 16383 for large ones",
        Key::Mode => "\"U\" or \"O\"",
        Key::K1 => "a number from 1 to n1",
        Key::K2 => "a number from 1 to n2",
        Key::N1 | Key::N2 => "a number from 1 to 64",
        Key::PacketMs => "a number from 1 to 60000",
        Key::StaticNackMs => "a number from 0 to 3600000",
        Key::DeliverPort | Key::FeedbackPort | Key::RelayPort => "a number from 1 to 65535",
        Key::IdleMs => "a number from 0 to 86400000",
        Key::Range => "at most 8 tables of first, last and mode, in rising order, up to max_cid",
    }
}

/// The faults of one entry, at its table.
#[derive(Clone, Copy)]
struct Entry<'a, 'p> {
    alloc: Global,
    places: &'p Places<'a>,
    version: Version,
    entry: usize,
    table: &'a Table,
    /// The numbers of all links.
    numbers: &'p [u16],
}

/// The first number above this one that no link has.
fn free_number(numbers: &[u16], number: u16) -> Option<u16> {
    (number..=u16::MAX).find(|candidate| !numbers.contains(candidate))
}

impl<'a> Entry<'a, '_> {
    /// A fault at a name of the entry.
    fn finding(&self, name: &'a str, wrong: Wrong<'a>, may: &'static str) -> Finding<'a> {
        Finding {
            line: self.places.line_of(self.entry, self.table, name),
            entry: self.entry,
            link: field_at(self.table, "number"),
            name,
            value: self.table.get(name),
            wrong,
            may,
        }
    }

    /// Appends the faults at the top of the file, which has so many entries.
    fn push_top(
        &self,
        all: &mut Vec<Finding<'a>>,
        faults: &FileFaults<'a>,
        count: usize,
    ) -> Result<(), AllocError> {
        if faults.version {
            all.push(self.finding("version", Wrong::Unfit, "1 or 2"))?;
        }
        for name in faults.unknown.iter() {
            let near = nearest_name(self.alloc, name, &[Key::Link.name()])?;
            all.push(self.finding(name, Wrong::Unknown(near), "version or link"))?;
        }
        if let Some(Value::Table(_)) = self.table.get("link") {
            all.push(self.finding("link", Wrong::OneTable, may_stand(Key::Link)))?;
        } else if faults.link {
            all.push(self.finding("link", Wrong::Unfit, may_stand(Key::Link)))?;
        } else if count == 0 || count > 256 {
            all.push(self.finding("link", Wrong::Count, may_stand(Key::Link)))?;
        }
        Ok(())
    }

    /// Appends the faults of the entry.
    fn push(&self, all: &mut Vec<Finding<'a>>, faults: &EntryFaults<'a>) -> Result<(), AllocError> {
        for name in faults.unknown.iter() {
            all.push(self.unknown(name)?)?;
        }
        for key in faults.unfit.iter() {
            all.push(self.finding(key.name(), Wrong::Unfit, may_stand(*key)))?;
        }
        for key in faults.beyond.iter() {
            all.push(self.finding(key.name(), Wrong::Beyond, may_stand(*key)))?;
        }
        if let Some(earlier) = faults.earlier {
            let number = field_at(self.table, "number").unwrap_or(0);
            let free = free_number(self.numbers, number);
            let wrong = Wrong::Twice { earlier, free };
            all.push(self.finding("number", wrong, "a number of its own"))?;
        }
        Ok(())
    }

    /// The fault of a name that the version doesn't know.
    fn unknown(&self, name: &'a str) -> Result<Finding<'a>, AllocError> {
        if keys(Version::Two).iter().any(|key| key.name() == name) {
            return Ok(self.finding(name, Wrong::Newer, "version = 2"));
        }
        let names = names_of(self.alloc, keys(self.version))?;
        let near = nearest_name(self.alloc, name, names.as_slice())?;
        Ok(self.finding(name, Wrong::Unknown(near), "a key of man rohc-links"))
    }
}

/// The names of keys.
fn names_of(alloc: Global, keys: &[Key]) -> Result<Vec<&'static str>, AllocError> {
    let mut names = Vec::new(alloc);
    for key in keys {
        names.push(key.name())?;
    }
    Ok(names)
}

/// The numbers of all links, as far as they can be read.
fn numbers_of(alloc: Global, values: &[Value]) -> Result<Vec<u16>, AllocError> {
    let mut numbers = Vec::new(alloc);
    for value in values {
        if let Some(table) = value.as_table()
            && let Some(number) = field_at(table, "number")
        {
            numbers.push(number)?;
        }
    }
    Ok(numbers)
}

/// All faults of a links file, those at its top first, and then entry by entry.
pub fn findings<'a>(
    alloc: Global,
    text: &'a str,
    table: &'a Table,
    faults: &FileFaults<'a>,
) -> Result<Vec<Finding<'a>>, AllocError> {
    let values = entries(table).unwrap_or(&[]);
    let places = Places::new(alloc, text, values.len())?;
    let numbers = numbers_of(alloc, values)?;
    let mut all = Vec::new(alloc);
    let top = Entry {
        alloc,
        places: &places,
        version: Version::Two,
        entry: 0,
        table,
        numbers: &numbers,
    };
    top.push_top(&mut all, faults, values.len())?;
    let version = field_at(table, "version").unwrap_or(Version::Two);
    for (place, faults) in faults.entries.iter().enumerate() {
        if let Some(table) = values.get(place)
            && let Some(table) = table.as_table()
        {
            let entry = Entry {
                alloc,
                places: &places,
                version,
                entry: place.saturating_add(1),
                table,
                numbers: &numbers,
            };
            entry.push(&mut all, faults)?;
        }
    }
    Ok(all)
}

/// The fault of a text that is no TOML document.
pub fn no_toml<'a>(text: &'a str, error: &Error) -> Finding<'a> {
    Finding {
        line: Some(error_line(text, error)),
        entry: 0,
        link: None,
        name: "",
        value: None,
        wrong: Wrong::NoToml {
            text,
            error: *error,
        },
        may: "a TOML document",
    }
}
