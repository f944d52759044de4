//! The tables `[[link]]` of a gateway file: what it says of links beside the links file.

use crate::config::{A_PORT, Place, Reading, Wrong};
use indexmap::IndexMap;
use rohc_text::nearest_name;
use std::alloc::{AllocError, Global};
use toml::{Table, Value};

/// A key of a table.
pub(crate) struct LinkKey {
    pub(crate) name: &'static str,
    /// What its value must be.
    expected: &'static str,
}

/// The keys of a table, each with an arm of `set`.
pub(crate) const LINK_KEYS: [LinkKey; 6] = [
    LinkKey {
        name: "number",
        expected: "a number from 0 to 65535",
    },
    LinkKey {
        name: "name",
        expected: "a text of 1 to 64 characters, without control characters",
    },
    LinkKey {
        name: "port",
        expected: A_PORT,
    },
    LinkKey {
        name: "payload",
        expected: "a number of octets from 1 to 65535",
    },
    LinkKey {
        name: "new_contexts_per_second",
        expected: A_LIMIT,
    },
    LinkKey {
        name: "feedback_per_second",
        expected: A_LIMIT,
    },
];

/// What a limit must be.
const A_LIMIT: &str = "a number from 0 to 4294967295 (0 is no limit)";

/// The most characters of a name.
const LONGEST_NAME: usize = 64;

/// What a gateway file says of a link.
#[derive(Drop)]
pub struct LinkNote {
    /// The number of the link.
    pub number: u16,
    /// The name, if it has one.
    pub name: Option<String>,
    /// The port for its datagrams without a number, if it has one.
    pub port: Option<u16>,
    /// How many octets the payload of its packets has at most, if that is known.
    pub payload: Option<u16>,
    /// How many contexts it may make in a second; 0 is no limit.
    pub new_contexts_per_second: u32,
    /// How many feedback elements for the compressor may be sent in a second; 0 is no limit.
    pub feedback_per_second: u32,
    /// The table, counted from 1.
    pub table: usize,
    /// Where the number stands.
    pub place: Place,
}

/// What was read of a table so far.
#[derive(Drop)]
struct Found {
    number: Option<u16>,
    name: Option<String>,
    port: Option<u16>,
    payload: Option<u16>,
    new_contexts_per_second: Option<u32>,
    feedback_per_second: Option<u32>,
}

/// A name of a link: 1 to 64 characters, none of them a control character.
fn name_in(alloc: Global, value: &Value) -> Result<Option<String>, AllocError> {
    let Some(text) = value.as_str() else {
        return Ok(None);
    };
    let count = text.chars().count();
    if count == 0 || count > LONGEST_NAME || text.chars().any(char::is_control) {
        return Ok(None);
    }
    Ok(Some(String::from_str(alloc, text)?))
}

/// The number of a link.
fn number_in(value: &Value) -> Option<u16> {
    u16::try_from(value.as_integer()?).ok()
}

/// A port, or a number of octets: not 0.
fn positive_in(value: &Value) -> Option<u16> {
    number_in(value).filter(|number| *number > 0)
}

/// A limit.
fn limit_in(value: &Value) -> Option<u32> {
    u32::try_from(value.as_integer()?).ok()
}

impl Found {
    /// Nothing was read yet.
    fn new() -> Found {
        Found {
            number: None,
            name: None,
            port: None,
            payload: None,
            new_contexts_per_second: None,
            feedback_per_second: None,
        }
    }

    /// Sets a key to a value. Returns whether the key can have it.
    fn set(&mut self, alloc: Global, key: &str, value: &Value) -> Result<bool, AllocError> {
        match key {
            "number" => {
                self.number = number_in(value);
                Ok(self.number.is_some())
            }
            "name" => {
                self.name = name_in(alloc, value)?;
                Ok(self.name.is_some())
            }
            "port" => {
                self.port = positive_in(value);
                Ok(self.port.is_some())
            }
            "payload" => {
                self.payload = positive_in(value);
                Ok(self.payload.is_some())
            }
            "new_contexts_per_second" => {
                self.new_contexts_per_second = limit_in(value);
                Ok(self.new_contexts_per_second.is_some())
            }
            "feedback_per_second" => {
                self.feedback_per_second = limit_in(value);
                Ok(self.feedback_per_second.is_some())
            }
            _ => Ok(false),
        }
    }
}

/// The key of this name.
fn key_of(name: &str) -> Option<&'static LinkKey> {
    LINK_KEYS.iter().find(|key| key.name == name)
}

/// The key to which the fewest edits lead from a name, if these are few.
fn nearest_key(alloc: Global, name: &str) -> Result<Option<&'static str>, AllocError> {
    let mut names = Vec::new(alloc);
    for key in &LINK_KEYS {
        names.push(key.name)?;
    }
    nearest_name(alloc, name, names.as_slice())
}

impl Reading<'_> {
    /// Where a key of a table stands.
    fn place_in_table(&self, table: usize, key: &str) -> Place {
        match self.lines.line_in_table(table, key) {
            Some(line) => Place::Line(line),
            None => Place::File,
        }
    }

    /// Adds a fault of a key of a table.
    fn add_of_link(&mut self, table: usize, key: &str, wrong: Wrong) -> Result<(), AllocError> {
        self.add_fault(self.place_in_table(table, key), Some(table), key, wrong)
    }

    /// Reads the key of a table.
    fn read_link_key(
        &mut self,
        found: &mut Found,
        table: usize,
        key: &str,
        value: &Value,
    ) -> Result<(), AllocError> {
        let Some(known) = key_of(key) else {
            let near = nearest_key(self.alloc, key)?;
            return self.add_of_link(table, key, Wrong::UnknownKey(near));
        };
        if found.set(self.alloc, key, value)? {
            return Ok(());
        }
        let wrong = self.wrong_value(value, known.expected)?;
        self.add_of_link(table, key, wrong)
    }

    /// Reads the table of this number.
    fn read_link(&mut self, table: usize, members: &Table) -> Result<(), AllocError> {
        let mut found = Found::new();
        for (key, value) in members {
            self.read_link_key(&mut found, table, key.as_str(), value)?;
        }
        let Some(number) = found.number else {
            if !members.contains_key("number") {
                self.add_of_link(table, "number", Wrong::Missing("a number from 0 to 65535"))?;
            }
            return Ok(());
        };
        if let Some(other) = self.tables.get(&number).copied() {
            return self.add_of_link(table, "number", Wrong::SameNumber(number, other));
        }
        let _ = self.tables.insert(number, table)?;
        let place = self.place_in_table(table, "number");
        self.config.notes.push(LinkNote {
            number,
            name: found.name,
            port: found.port,
            payload: found.payload,
            new_contexts_per_second: found.new_contexts_per_second.unwrap_or(0),
            feedback_per_second: found.feedback_per_second.unwrap_or(0),
            table,
            place,
        })?;
        Ok(())
    }

    /// The port of the note at this place, if it has one, and its table.
    fn port_of_note(&self, place: usize) -> Option<(u16, usize)> {
        let note = self.config.notes.get(place)?;
        Some((note.port?, note.table))
    }

    /// Judges the ports of the tables: none is that of another key, or of an earlier table.
    pub(crate) fn judge_link_ports(&mut self) -> Result<(), AllocError> {
        let mut tables: IndexMap<u16, usize> = IndexMap::new(self.alloc);
        for place in 0..self.config.notes.len() {
            let Some((port, table)) = self.port_of_note(place) else {
                continue;
            };
            let wrong = if let Some(key) = self.config.key_of_port(port) {
                Wrong::SamePort(key)
            } else if let Some(other) = tables.get(&port) {
                Wrong::SameNumber(port, *other)
            } else {
                let _ = tables.insert(port, table)?;
                continue;
            };
            self.add_of_link(table, "port", wrong)?;
        }
        Ok(())
    }

    /// Reads the tables `[[link]]`.
    pub(crate) fn read_links(&mut self, members: &Table) -> Result<(), AllocError> {
        let Some(value) = members.get("link") else {
            return Ok(());
        };
        let tables: &[Value] = match value.as_array() {
            Some(tables) => tables.as_slice(),
            None => return self.add_value("link", value, "tables [[link]]"),
        };
        for (place, one) in tables.iter().enumerate() {
            match one.as_table() {
                Some(members) => self.read_link(place.saturating_add(1), members)?,
                None => return self.add_value("link", value, "tables [[link]]"),
            }
        }
        Ok(())
    }
}
