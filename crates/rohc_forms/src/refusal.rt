//! Why a packet of kind Other is refused.

/// The first fault of a packet of kind Other, in the order of its octets.
#[derive(Clone, Copy, Debug, PartialEq, Eq)]
pub enum FormRefusal {
    /// The packet ends inside its header.
    Truncated,
    /// The protocol isn't UDP.
    Protocol,
    /// Flag IPX: there is a list of extension headers.
    ExtensionList,
    /// Flag CSRC: there are contributing sources.
    Csrc,
    /// TS_STRIDE is 0.
    ZeroStride,
    /// Mode 3, which is the reliable mode.
    ReliableMode,
    /// Flag ip2: there is an outer IP header.
    OuterHeader,
    /// The timestamp's bits are scaled, but no stride is in force.
    NoStride,
    /// An extension 3 of a UO-1-ID gives RND 1.
    RndInUo1,
    /// The packet has both the whole Identification, by RND, and its offset, by flag I.
    IpIdTwice,
}
