//! The lines of a links file at which its entries and their keys stand.
//!
//! The reader of TOML keeps no lines, so they are looked for here. A line is told only if the reader, given that line
//! alone, finds what stands there. Else the line at which the entry begins is told, or none.

use std::alloc::{AllocError, Global};
use toml::{Table, Value};

/// What stands before an entry.
const ENTRY: &str = "[[link]]";

/// What stands before a range of an entry.
const RANGE: &str = "[[link.range]]";

/// The lines of a file, and those at which its entries begin.
#[derive(Drop)]
pub(crate) struct Places<'a> {
    alloc: Global,
    lines: Vec<&'a str>,
    /// The places of the lines `[[link]]` among the lines, if they are as many as the entries.
    entries: Vec<usize>,
}

/// The line without its comment and the blanks round it, if the comment holds no quote.
fn bare(line: &str) -> &str {
    match line.split_once("#") {
        Some((front, _)) => front.trim(),
        None => line.trim(),
    }
}

/// Whether the line is the header of a table of this name, or of one of several.
fn is_header(line: &str, name: &str) -> bool {
    let bare = bare(line);
    bare.starts_with("[") && bare.trim_start_matches("[").trim_end_matches("]").trim() == name
}

impl<'a> Places<'a> {
    /// The lines of a text with this number of entries.
    pub(crate) fn new(alloc: Global, text: &'a str, count: usize) -> Result<Self, AllocError> {
        let mut lines = Vec::new(alloc);
        let mut entries = Vec::new(alloc);
        for line in text.split("\n") {
            if bare(line) == ENTRY {
                entries.push(lines.len())?;
            }
            lines.push(line)?;
        }
        if entries.len() != count {
            entries.clear();
        }
        Ok(Places {
            alloc,
            lines,
            entries,
        })
    }

    /// Whether the line, read alone, has this value at the name.
    fn holds(&self, line: &str, name: &str, value: &Value) -> bool {
        match toml::table_from_str(self.alloc, line) {
            Ok(table) => match table.get(name) {
                Some(found) => found == value,
                None => false,
            },
            Err(_) => false,
        }
    }

    /// The number of the line, counted from 1, at which the entry begins.
    pub(crate) fn line_of_entry(&self, entry: usize) -> Option<usize> {
        let place = self.entries.get(entry.checked_sub(1)?)?;
        Some(place.saturating_add(1))
    }

    /// The number of the line, counted from 1, at which the name of an entry stands, or the entry begins; of the top
    /// of the file if the entry is 0.
    pub(crate) fn line_of(&self, entry: usize, table: &Table, name: &str) -> Option<usize> {
        let begin = match entry {
            0 => 0,
            _ => self.line_of_entry(entry)?,
        };
        let value = table.get(name);
        for place in begin..self.lines.len() {
            let line = self.lines[place];
            if entry > 0 && bare(line) == ENTRY {
                break;
            }
            if (name == "range" && bare(line) == RANGE) || (entry == 0 && is_header(line, name)) {
                return Some(place.saturating_add(1));
            }
            if let Some(value) = value
                && line.contains(name)
                && self.holds(line, name, value)
            {
                return Some(place.saturating_add(1));
            }
        }
        self.line_of_entry(entry)
    }
}
