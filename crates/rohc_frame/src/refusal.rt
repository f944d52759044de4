//! Why a packet is refused by framing.

/// The refusals of framing (RFC 5795 5.2).
#[derive(Clone, Copy, Debug, PartialEq, Eq)]
pub enum FrameRefusal {
    /// The packet has no octets.
    Empty,
    /// A feedback element's Size octet or data is cut off.
    FeedbackShort,
    /// A feedback type octet follows an Add-CID octet.
    AfterAddCid,
    /// Type octet FE or FF: segmentation.
    Segment,
    /// Type octet F9, FA or FB, or an octet E0 to EF after an Add-CID octet.
    ReservedType,
    /// An Add-CID octet on a link of large CIDs.
    AddCidOnLarge,
    /// The first octet of a large CID starts with the bits 11.
    LargeCid,
    /// The CID is above the link's greatest.
    CidRange,
    /// The packet ends after an Add-CID octet, or before a large CID is complete.
    NoHeader,
}
