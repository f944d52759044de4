//! The content of a packet of kind Other: what its bits say of the header's fields.

ghost use Rattle.std.specs.Prelude.{◌≡◌, ◌≤◌, ◌<◌, false};
ghost use Rattle.std.specs.Option.{ForSome};
ghost use Rattle.rohc_forms.specs.Kinds.{is_uor2, offset_in};

use rohc_bits::Bits;

/// The format of a packet (RFC 3095 5.7.1 to 5.7.4).
#[derive(Clone, Copy, Debug, PartialEq, Eq)]
pub enum FormKind {
    /// UO-0.
    Uo0,
    /// UO-1, if the Identification is random (RND 1).
    Uo1,
    /// UO-1-ID.
    Uo1Id,
    /// UO-1-TS.
    Uo1Ts,
    /// UOR-2, if the Identification is random (RND 1).
    Uor2,
    /// UOR-2-ID.
    Uor2Id,
    /// UOR-2-TS.
    Uor2Ts,
}

/// What a packet says of the Identification (IP-ID).
#[derive(Clone, Copy, PartialEq, Eq)]
pub enum IdBits {
    /// Nothing: its offset from the sequence number stays the same.
    Same,
    /// Low bits of that offset.
    Offset(Bits),
    /// The whole Identification, as it stands in the IP header.
    Whole(u16),
}

/// The values that an extension 3 gives (RFC 3095 5.7.5). A value that is `None` stays as the context
/// has it.
#[derive(Clone, Copy, PartialEq, Eq)]
pub struct Values {
    /// The type of service (TOS).
    pub tos: Option<u8>,
    /// The time to live (TTL).
    pub ttl: Option<u8>,
    /// RTP's payload type, below 128.
    pub payload_type: Option<u8>,
    /// TS_STRIDE, from 1 to 536,870,911.
    pub stride: Option<u32>,
    /// RTP's padding flag.
    pub padding: Option<bool>,
    /// The flag Don't Fragment.
    pub df: Option<bool>,
    /// NBO: whether the Identification is in network byte order.
    pub nbo: Option<bool>,
    /// RND: whether the Identification is random.
    pub rnd: Option<bool>,
    /// RTP's extension flag.
    pub extension: Option<bool>,
    ghost payload_type_fits: { ForSome payload_type (λ n. n < 128) },
    ghost stride_some: { ForSome stride (λ n. 1 ≤ n) },
    ghost stride_fits: { ForSome stride (λ n. n ≤ 536870911) },
}

/// The content of a packet of kind Other.
#[derive(Clone, Copy)]
pub struct Form<'a> {
    /// The format, by the RND in force.
    pub kind: FormKind,
    /// The bits of the sequence number, 1 to 16.
    pub sn: Bits,
    /// The bits of the timestamp, 2 to 32, if the packet carries any.
    pub ts: Option<Bits>,
    /// Tsc of an extension 3: whether the timestamp's bits are scaled.
    pub tsc: Option<bool>,
    /// The Identification. It is the whole one exactly if it is random, by the RND that the packet gives or else by
    /// the context's.
    pub id: IdBits,
    /// The UDP checksum, if packets of the call carry one.
    pub udp_sum: Option<u16>,
    /// RTP's marker: that of the rtp octet if there is one, else that of the format; `false` if
    /// neither carries it.
    pub marker: bool,
    /// The values that an extension 3 gives.
    pub values: Option<Values>,
    /// The check: 3 bits, or 7 in a UOR-2.
    pub check: u8,
    /// The octets after the header.
    pub payload: &'a [u8],
    ghost sn_some: { 1 ≤ sn.count },
    ghost sn_narrow: { sn.count ≤ 16 },
    ghost ts_some: { ForSome ts (λ bits. 2 ≤ bits.count) },
    ghost offset_some: { ForSome (offset_in id) (λ bits. 1 ≤ bits.count) },
    ghost offset_narrow: { ForSome (offset_in id) (λ bits. bits.count ≤ 16) },
    ghost check_7: { check < 128 },
    ghost check_3: { is_uor2 kind ≡ false → check < 8 },
}
