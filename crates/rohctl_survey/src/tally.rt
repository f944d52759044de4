//! How often a few things came.

use std::alloc::{AllocError, Global};

/// A thing, and how often it came.
#[derive(Clone, Copy)]
pub(crate) struct Row<K> {
    pub(crate) thing: K,
    pub(crate) count: u64,
}

/// How often each of a few things came, in the order in which they came first.
#[derive(Drop)]
pub(crate) struct Tally<K: Copy> {
    rows: Vec<Row<K>>,
}

impl<K: Copy + PartialEq> Tally<K> {
    /// Nothing came.
    pub(crate) fn new(alloc: Global) -> Self {
        Tally {
            rows: Vec::new(alloc),
        }
    }

    /// Counts a thing.
    pub(crate) fn add(&mut self, thing: K) -> Result<(), AllocError> {
        let place = self.rows.iter().position(|row| row.thing == thing);
        if let Some(place) = place
            && let Some(row) = self.rows.get_mut(place)
        {
            row.count = row.count.saturating_add(1);
            return Ok(());
        }
        self.rows.push(Row { thing, count: 1 })?;
        Ok(())
    }

    /// Each thing with its count.
    pub(crate) fn rows(&self) -> &[Row<K>] {
        self.rows.as_slice()
    }
}
