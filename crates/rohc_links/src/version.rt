//! The versions of a links file.

/// The version of a links file.
#[derive(Clone, Copy, PartialEq, Eq)]
pub enum Version {
    /// Thirteen keys in each entry.
    One,
    /// Two more: `idle_ms` and `range`.
    Two,
}
