//! What was read of a saved concentrator.

use indexmap::IndexMap;
use rohc_context::Context;
use rohc_frame::CidKind;

/// What was saved of a link.
#[derive(Drop)]
pub(crate) struct SavedLink {
    /// Whether its CIDs were small or large.
    pub(crate) size: CidKind,
    /// Its greatest CID.
    pub(crate) greatest: u16,
    /// Its contexts by CID, in the order of their first IR.
    pub(crate) contexts: IndexMap<u16, Context>,
}

/// What was saved of a concentrator.
#[derive(Drop)]
pub(crate) struct SavedForm {
    /// The moment of saving.
    pub(crate) moment: u64,
    /// Its links by number, in the order of their settings.
    pub(crate) links: IndexMap<u16, SavedLink>,
}
