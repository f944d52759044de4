//! The ports of a link.

/// The UDP ports of a link on 127.0.0.1.
#[derive(Clone, Copy, Debug, PartialEq, Eq)]
pub struct Ports {
    /// The port that gets the decompressed packets.
    pub deliver: u16,
    /// The port that gets the feedback elements for the peer.
    pub feedback: u16,
    /// The port that gets the feedback elements from the peer.
    pub relay: u16,
}
