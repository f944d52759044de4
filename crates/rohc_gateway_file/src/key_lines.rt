//! Where the keys of a gateway file are, found in one pass over its text.

use indexmap::IndexMap;
use std::alloc::{AllocError, Global};

/// The lines of keys and tables, counted from 1.
#[derive(Drop)]
pub(crate) struct KeyLines<'a> {
    /// The first line of each key, with the number of its table [[link]]; 0: it is before all tables.
    keys: IndexMap<(usize, &'a str), usize>,
    /// The headers of the tables [[link]].
    headers: Vec<usize>,
    /// Whether no table began yet.
    is_before: bool,
}

/// Whether a line is the header of a table `[[link]]`.
fn is_header(line: &str) -> bool {
    match line.trim().strip_prefix("[[") {
        Some(rest) => match rest.split_once("]]") {
            Some((name, _)) => name.trim() == "link",
            None => false,
        },
        None => false,
    }
}

impl<'a> KeyLines<'a> {
    /// Those of a text.
    pub(crate) fn of(alloc: Global, text: &'a str) -> Result<KeyLines<'a>, AllocError> {
        let mut lines = KeyLines {
            keys: IndexMap::new(alloc),
            headers: Vec::new(alloc),
            is_before: true,
        };
        for (place, line) in text.split("\n").enumerate() {
            lines.add(place.saturating_add(1), line)?;
        }
        Ok(lines)
    }

    /// Adds the line of this number.
    fn add(&mut self, number: usize, line: &'a str) -> Result<(), AllocError> {
        if is_header(line) {
            self.is_before = false;
            self.headers.push(number)?;
        } else if line.trim().starts_with("[") {
            self.is_before = false;
        } else if let Some((front, _)) = line.split_once("=")
            && (self.is_before || !self.headers.is_empty())
        {
            let key = (self.headers.len(), front.trim());
            if !self.keys.contains_key(&key) {
                let _ = self.keys.insert(key, number)?;
            }
        }
        Ok(())
    }

    /// The line of a key that is before all tables.
    pub(crate) fn line_of(&self, key: &str) -> Option<usize> {
        self.keys.get(&(0, key)).copied()
    }

    /// The line of a key of a table [[link]], or else the line of the table's header. The table is counted from 1.
    pub(crate) fn line_in_table(&self, table: usize, key: &str) -> Option<usize> {
        match self.keys.get(&(table, key)) {
            Some(line) => Some(*line),
            None => self.headers.get(table.saturating_sub(1)).copied(),
        }
    }
}
