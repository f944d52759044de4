//! Why a links file could not be read.

ghost use Rattle.std.specs.Prelude.{◌≡◌};
ghost use Rattle.rohc_links.specs.declared.fault.LinksFault.TheVariants.{NoMemory};
ghost use Rattle.rohc_links.specs.Keys.{name_of};

use std::alloc::AllocError;
use thiserror::Error;

/// A key of a links file.
#[derive(Clone, Copy, Debug, PartialEq, Eq)]
pub enum Key {
    /// `link`, the array of the entries.
    Link,
    /// `number`, the number of the link.
    Number,
    /// `cid`, the CID kind: small or large.
    Cid,
    /// `max_cid`, the greatest CID.
    MaxCid,
    /// `mode`, the mode of operation.
    Mode,
    /// `k1`, the failures that lead from Full to Static Context.
    K1,
    /// `n1`, the number of outcomes that `k1` is compared with.
    N1,
    /// `k2`, the failures that lead from Static to No Context.
    K2,
    /// `n2`, the number of outcomes that `k2` is compared with.
    N2,
    /// `packet_ms`, the time between two packets of a sender.
    PacketMs,
    /// `static_nack_ms`, the least time between two STATIC-NACKs.
    StaticNackMs,
    /// `deliver_port`, the port for decompressed packets.
    DeliverPort,
    /// `feedback_port`, the port for feedback to the peer.
    FeedbackPort,
    /// `relay_port`, the port for feedback from the peer.
    RelayPort,
    /// `idle_ms`, the time after which a record counts as none.
    IdleMs,
    /// `range`, the array of the ranges of CIDs with a mode of their own.
    Range,
}

impl Key {
    /// The key as it stands in the file.
    pub fn name(self) -> &'static str
        ensures { result.now ≡ name_of self }
    {
        match self {
            Key::Link => "link",
            Key::Number => "number",
            Key::Cid => "cid",
            Key::MaxCid => "max_cid",
            Key::Mode => "mode",
            Key::K1 => "k1",
            Key::N1 => "n1",
            Key::K2 => "k2",
            Key::N2 => "n2",
            Key::PacketMs => "packet_ms",
            Key::StaticNackMs => "static_nack_ms",
            Key::DeliverPort => "deliver_port",
            Key::FeedbackPort => "feedback_port",
            Key::RelayPort => "relay_port",
            Key::IdleMs => "idle_ms",
            Key::Range => "range",
        }
    }
}

/// What is wrong with a links file: the first fault in the order of the variants, entry by entry.
#[derive(Debug, Drop, PartialEq, Eq, Error)]
pub enum LinksFault {
    /// The text isn't a TOML document.
    #[error("NotToml")]
    NotToml,
    /// `version` is missing, or neither 1 nor 2.
    #[error("BadVersion")]
    BadVersion,
    /// The entry, counted from 1, has a key that its version doesn't know; 0 is the top of the file.
    #[error("UnknownKey")]
    UnknownKey {
        /// The entry, or 0.
        entry: usize,
    },
    /// The entry, counted from 1, lacks the key or has a wrong value there; 0 is the top of the file.
    #[error("BadKey")]
    BadKey {
        /// The entry, or 0.
        entry: usize,
        /// The first such key, in the order of `Key`.
        key: Key,
    },
    /// There is no memory. This may come in place of any other fault.
    #[error("NoMemory")]
    NoMemory,
}

impl LinksFault {
    ghost use Rattle.rohc_links.specs.Links.{fault_name};

    /// The name of the fault.
    pub fn name(&self) -> &'static str
        ensures { result.now ≡ fault_name self.now }
    {
        match self {
            LinksFault::NotToml => "NotToml",
            LinksFault::BadVersion => "BadVersion",
            LinksFault::UnknownKey { .. } => "UnknownKey",
            LinksFault::BadKey { .. } => "BadKey",
            LinksFault::NoMemory => "NoMemory",
        }
    }
}

impl From<AllocError> for LinksFault {
    ghost from_gives = { λ _ e. e ≡ NoMemory };

    fn from(_e: AllocError) -> LinksFault {
        LinksFault::NoMemory
    }
}
