//! The fields from which a header is rebuilt: those that stay the same during a call, and those
//! that change.

/// The static fields of a call's headers.
#[derive(Clone, Copy)]
pub struct Static {
    /// The source address.
    pub source: [u8; 4],
    /// The destination address.
    pub destination: [u8; 4],
    /// The source port.
    pub source_port: u16,
    /// The destination port.
    pub destination_port: u16,
    /// The SSRC.
    pub ssrc: u32,
}

/// The dynamic fields of a header, and what a context keeps about them: RND, NBO and the stride.
#[derive(Clone, Copy)]
pub struct Dynamic {
    /// The type of service (TOS).
    pub tos: u8,
    /// The time to live (TTL).
    pub ttl: u8,
    /// The Identification (IP-ID), as it stands in the IP header.
    pub id: u16,
    /// The UDP checksum.
    pub udp_sum: u16,
    /// RTP's sequence number.
    pub sn: u16,
    /// RTP's timestamp.
    pub ts: u32,
    /// RTP's payload type, below 128.
    pub payload_type: u8,
    /// The flag Don't Fragment.
    pub df: bool,
    /// RTP's padding flag.
    pub padding: bool,
    /// RTP's extension flag.
    pub extension: bool,
    /// RTP's marker.
    pub marker: bool,
    /// RND: whether the Identification is random, and so carried in each packet.
    pub rnd: bool,
    /// NBO: whether the Identification is in network byte order.
    pub nbo: bool,
    /// TS_STRIDE, from 1 to 536,870,911, if one is known.
    pub stride: Option<u32>,
}
