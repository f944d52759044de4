//! The header of a packet, as framing shows it.

ghost use Rattle.std.specs.Prelude.{◌≡◌, ◌≤◌, true};
ghost use Rattle.rohc_frame.specs.Header.{greatest_cid, is_header};

/// How a link encodes its CIDs (RFC 5795 5.1.3).
#[derive(Clone, Copy, Debug, PartialEq, Eq)]
pub enum CidKind {
    /// Small CIDs: 0 by no octet, and 1 to 15 by an Add-CID octet before the header.
    Small,
    /// Large CIDs: 0 to 16,383, by one or two octets after the first octet of the header.
    Large,
}

impl CidKind {
    ghost use Rattle.std.specs.Prelude.{◌≡◌};
    ghost use Rattle.rohc_frame.specs.Header.{greatest_cid};

    /// The greatest CID that this kind can encode: 15 or 16,383.
    pub fn greatest_cid(self) -> u16
        ensures { result ≡ greatest_cid self }
    {
        match self {
            CidKind::Small => 15,
            CidKind::Large => 16_383,
        }
    }
}

/// The kind of a packet, by the first octet of its header.
#[derive(Clone, Copy, PartialEq, Eq)]
pub enum HeadKind {
    /// FC or FD: an IR, without a dynamic chain or with one.
    Ir { dynamic: bool },
    /// F8: an IR-DYN.
    IrDyn,
    /// Below E0: its profile says what it is.
    Other,
}

/// The header of a packet, borrowed from the packet's octets.
#[derive(Clone, Copy)]
pub struct Forward<'a> {
    /// The CID, or context identifier.
    pub cid: u16,
    /// How the link encodes CIDs.
    pub size: CidKind,
    /// The kind of packet, by `first`.
    pub kind: HeadKind,
    /// The first octet of the header.
    pub first: u8,
    /// The CID octets as they arrived: on a link of small CIDs the Add-CID octet or none, on a link
    /// of large CIDs one or two octets.
    pub cid_octets: &'a [u8],
    /// The octets after the first octet and a large CID.
    pub rest: &'a [u8],
    ghost is_header: { is_header size cid kind first cid_octets.now ≡ true },
    ghost in_range: { cid ≤ greatest_cid size },
}
