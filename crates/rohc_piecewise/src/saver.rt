//! A save that goes by pieces.

use crate::noted::Noted;
use crate::ready::Ready;
use sha2::Sha256;

/// What a save does now.
#[derive(Clone, Copy, PartialEq, Eq)]
pub(crate) enum Stage {
    /// Nothing is being saved.
    Idle,
    /// The contexts of a link are gathered.
    Gathering,
    /// Octets in front of the digest wait to be taken.
    Waiting,
    /// The digest waits to be taken.
    Last,
}

/// A save that goes by pieces. It can be begun again and again, with the same buffer.
#[derive(Drop)]
pub struct Saver {
    /// What was noted of the links when the save began.
    pub(crate) heads: Vec<Noted>,
    /// How many of these links were looked at wholly.
    pub(crate) place: usize,
    /// The octets that are made ready.
    pub(crate) ready: Ready,
    /// How many of these were taken.
    pub(crate) sent: usize,
    /// The digest of the octets that were taken.
    pub(crate) hasher: Sha256,
    /// What the save does now.
    pub(crate) stage: Stage,
}
