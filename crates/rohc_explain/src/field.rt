//! A field of a packet: its name, the place of its bits, and their number.

ghost use Rattle.std.specs.Prelude.{◌≡◌};
ghost use Rattle.rohc_explain.specs.Names.{name_of};

/// The name of a field.
#[derive(Clone, Copy, PartialEq, Eq)]
pub enum FieldName {
    /// A padding octet (RFC 5795 5.2).
    Padding,
    /// The bits 11110 of a feedback type octet.
    FeedbackType,
    /// The size of feedback data, or 0 if an octet with it follows.
    Code,
    /// The size of feedback data, in an octet of its own.
    Size,
    /// An octet of feedback data.
    FeedbackData,
    /// The bits 1110 of an Add-CID octet.
    AddCid,
    /// The CID.
    Cid,
    /// The first bits of a self-describing value or of a large CID, which say how long it is.
    Length,
    /// Bits that are the same in each packet of the format.
    Format,
    /// A type octet that begins no packet.
    TypeOctet,
    /// Whether a dynamic chain follows.
    D,
    Profile,
    /// The check.
    Crc,
    /// Bits of the sequence number.
    Sn,
    /// Bits of the timestamp.
    Ts,
    /// Bits of the Identification's offset, or the whole Identification.
    IpId,
    /// RTP's marker.
    M,
    /// Whether an extension follows, or RTP's extension flag in a dynamic chain.
    X,
    /// More bits of the sequence number follow.
    S,
    /// More bits of the timestamp follow.
    RTs,
    Tsc,
    I,
    Ip,
    Rtp,
    TosFlag,
    TtlFlag,
    Df,
    Pr,
    Ipx,
    Nbo,
    Rnd,
    Ip2,
    Tos,
    Ttl,
    Protocol,
    Mode,
    RPt,
    RX,
    Csrc,
    Tss,
    Tis,
    /// RTP's padding flag.
    P,
    /// The payload type.
    Pt,
    TsStride,
    TimeStride,
    UdpSum,
    /// The version of IP or of RTP.
    Version,
    Reserved,
    Source,
    Destination,
    SourcePort,
    DestinationPort,
    Ssrc,
    /// The list of extension headers.
    ExtensionHeaders,
    /// The number of contributing sources.
    Cc,
    /// The list of contributing sources.
    CsrcList,
    /// The length of the IPv4 header, in words of 32 bits.
    HeaderLength,
    /// The length of the IPv4 packet.
    TotalLength,
    /// IPv4's flag More Fragments.
    Mf,
    /// IPv4's Fragment Offset.
    FragmentOffset,
    /// IPv4's header checksum.
    HeaderSum,
    /// The length of the UDP datagram.
    UdpLength,
}

impl FieldName {
    /// The name as the RFCs' pictures have it.
    pub fn name(self) -> &'static str
        ensures { result.now ≡ name_of self }
    {
        match self {
            FieldName::Padding => "padding",
            FieldName::FeedbackType => "feedback type",
            FieldName::Code => "Code",
            FieldName::Size => "Size",
            FieldName::FeedbackData => "feedback data",
            FieldName::AddCid => "Add-CID",
            FieldName::Cid => "CID",
            FieldName::Length => "length",
            FieldName::Format => "format",
            FieldName::TypeOctet => "type octet",
            FieldName::D => "D",
            FieldName::Profile => "Profile",
            FieldName::Crc => "CRC",
            FieldName::Sn => "SN",
            FieldName::Ts => "TS",
            FieldName::IpId => "IP-ID",
            FieldName::M => "M",
            FieldName::X => "X",
            FieldName::S => "S",
            FieldName::RTs => "R-TS",
            FieldName::Tsc => "Tsc",
            FieldName::I => "I",
            FieldName::Ip => "ip",
            FieldName::Rtp => "rtp",
            FieldName::TosFlag => "TOS flag",
            FieldName::TtlFlag => "TTL flag",
            FieldName::Df => "DF",
            FieldName::Pr => "PR",
            FieldName::Ipx => "IPX",
            FieldName::Nbo => "NBO",
            FieldName::Rnd => "RND",
            FieldName::Ip2 => "ip2",
            FieldName::Tos => "TOS",
            FieldName::Ttl => "TTL",
            FieldName::Protocol => "Protocol",
            FieldName::Mode => "Mode",
            FieldName::RPt => "R-PT",
            FieldName::RX => "R-X",
            FieldName::Csrc => "CSRC",
            FieldName::Tss => "TSS",
            FieldName::Tis => "TIS",
            FieldName::P => "P",
            FieldName::Pt => "PT",
            FieldName::TsStride => "TS_STRIDE",
            FieldName::TimeStride => "TIME_STRIDE",
            FieldName::UdpSum => "UDP checksum",
            FieldName::Version => "Version",
            FieldName::Reserved => "reserved",
            FieldName::Source => "source address",
            FieldName::Destination => "destination address",
            FieldName::SourcePort => "source port",
            FieldName::DestinationPort => "destination port",
            FieldName::Ssrc => "SSRC",
            FieldName::ExtensionHeaders => "extension headers",
            FieldName::Cc => "CC",
            FieldName::CsrcList => "CSRC list",
            FieldName::HeaderLength => "IHL",
            FieldName::TotalLength => "total length",
            FieldName::Mf => "MF",
            FieldName::FragmentOffset => "fragment offset",
            FieldName::HeaderSum => "header checksum",
            FieldName::UdpLength => "UDP length",
        }
    }
}

/// A field of a packet.
#[derive(Clone, Copy, PartialEq, Eq)]
pub struct Field {
    /// Its name.
    pub name: FieldName,
    /// Its first bit, counted from the most significant bit of the packet's first octet.
    pub first: u32,
    /// How many bits it has, at most 32.
    pub count: u8,
    /// The number of its bits.
    pub value: u32,
}
