//! The counts of a script's lines.

/// How many lines of a script are good, and how many aren't.
#[derive(Clone, Copy, Debug, PartialEq, Eq)]
pub struct Tally {
    /// The good lines.
    pub events: u64,
    /// The bad lines and the long ones.
    pub bad: u64,
}
