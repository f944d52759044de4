//! What is told of a restored concentrator.

/// The moment of saving, and how much of what was saved was taken or left out. Each count stays at the greatest `u64`.
#[derive(Clone, Copy, Debug, Default, PartialEq, Eq)]
pub struct Restored {
    /// The moment of saving, in milliseconds of the clock of the arrivals.
    pub moment: u64,
    /// Links that were taken.
    pub links: u64,
    /// Links that aren't in the settings, and were left out.
    pub unknown_links: u64,
    /// Links of another CID kind in the settings, which were left out.
    pub other_links: u64,
    /// Contexts that were taken.
    pub contexts: u64,
    /// Contexts that were left out with their link.
    pub left_contexts: u64,
    /// Contexts of taken links that were left out, since their CID is above the greatest of the settings.
    pub high_contexts: u64,
}
