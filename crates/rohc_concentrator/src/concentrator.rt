//! The contexts of all links.

use crate::place::Hints;
use crate::records::LinkRecords;
use indexmap::IndexMap;

/// The contexts of all links.
#[derive(Drop)]
pub struct Concentrator {
    /// The links by number, in the order of their settings.
    pub(crate) links: IndexMap<u16, LinkRecords>,
    /// Where each of them and its records were put.
    pub(crate) hints: Hints,
}
