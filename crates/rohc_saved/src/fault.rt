//! Why a concentrator isn't saved, and why octets are no saved concentrator.

use rohc_concentrator::SetupFault;
use thiserror::Error;

/// Why a concentrator isn't saved whole.
#[derive(Clone, Copy, Debug, PartialEq, Eq, Error)]
pub enum SaveFault {
    /// The link isn't there. Nothing was written.
    #[error("the link isn't there")]
    NoLink,
    /// A write or the flush failed, or a write took no octets.
    #[error("a write failed after {written} octets")]
    Write {
        /// How many octets were written before. They are the first of those to be saved.
        written: u64,
    },
}

/// Why nothing is restored: a fault of the settings, or else the first fault of the octets from the left. A place
/// counts the octets from 0.
#[derive(Clone, Copy, Debug, PartialEq, Eq, Error)]
pub enum SavedFault {
    /// The settings are refused. The octets weren't read.
    #[error("the settings are refused: {0}")]
    Settings(SetupFault),
    /// The octets don't begin as those of a saved concentrator do.
    #[error("no saved concentrator")]
    NotSaved,
    /// The version isn't 1.
    #[error("an unknown version at octet {place}")]
    Version {
        /// Where the version stands.
        place: usize,
    },
    /// The octets end too soon.
    #[error("the octets end too soon, at octet {place}")]
    Short {
        /// How many octets there are.
        place: usize,
    },
    /// A CID kind above 1, a reserved octet that isn't 0, or a greatest CID that the kind doesn't have.
    #[error("a bad value of a link at octet {place}")]
    BadLink {
        /// Where the value stands.
        place: usize,
    },
    /// A value that no context has.
    #[error("a bad value of a context at octet {place}")]
    BadContext {
        /// Where the value stands.
        place: usize,
    },
    /// A link for the second time, a CID for the second time, or a CID above the greatest of its link.
    #[error("a link or a CID out of order at octet {place}")]
    BadOrder {
        /// Where the number stands.
        place: usize,
    },
    /// The SHA-256 isn't that of the octets before it.
    #[error("the digest at octet {place} doesn't match")]
    Digest {
        /// Where the digest stands.
        place: usize,
    },
    /// Octets follow the digest.
    #[error("octets behind the end, at octet {place}")]
    Long {
        /// Where they start.
        place: usize,
    },
    /// There is no memory.
    #[error("no memory")]
    NoMemory,
}

/// Why one link isn't restored: the first of these that holds, in this order, but for `NoMemory`, which comes only if a
/// request for memory was refused.
#[derive(Clone, Copy, Debug, PartialEq, Eq, Error)]
pub enum LinkFault {
    /// The link isn't there.
    #[error("the link isn't there")]
    NoLink,
    /// The link holds a context.
    #[error("the link holds a context")]
    HasContexts,
    /// The octets are refused.
    #[error("{0}")]
    Octets(SavedFault),
    /// The octets aren't those of this link alone.
    #[error("the octets aren't those of this link alone")]
    OtherLink,
    /// The link was saved with the other CID kind.
    #[error("the link was saved with the other CID kind")]
    OtherKind,
    /// There is no memory.
    #[error("no memory")]
    NoMemory,
}
