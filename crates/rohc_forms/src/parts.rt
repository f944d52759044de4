//! The content of single parts of a packet.

ghost use Rattle.std.specs.Prelude.{◌≤◌, ◌<◌};
ghost use Rattle.std.specs.Option.{ForSome};

use crate::form::{FormKind, Values};
use rohc_bits::Bits;

/// The octets before an extension.
#[derive(Clone, Copy)]
pub(crate) struct Base {
    /// The first of them.
    pub first: u8,
    /// All of them as one number, most significant octet first.
    pub number: u32,
}

/// The fields of the base octets, with the bits that an extension appends.
#[derive(Clone, Copy)]
pub(crate) struct Fields {
    pub sn: Bits,
    pub ts: Option<Bits>,
    /// Bits of the Identification's offset.
    pub id: Option<Bits>,
    pub marker: bool,
    /// Whether an extension follows.
    pub extended: bool,
    pub check: u8,
}

/// The ip octet of an extension 3: which octets follow, and the values in it.
#[derive(Clone, Copy)]
pub(crate) struct IpFlags {
    pub tos: bool,
    pub ttl: bool,
    pub df: bool,
    pub protocol: bool,
    pub nbo: bool,
    pub rnd: bool,
}

/// What an extension 3 gives of the IP header.
#[derive(Clone, Copy)]
pub(crate) struct IpGiven {
    pub tos: Option<u8>,
    pub ttl: Option<u8>,
    pub df: bool,
    pub nbo: bool,
    pub rnd: bool,
}

/// The rtp octet of an extension 3: which octets follow, and the values in it.
#[derive(Clone, Copy)]
pub(crate) struct RtpFlags {
    pub payload_type: bool,
    pub marker: bool,
    pub extension: bool,
    pub stride: bool,
    pub time_stride: bool,
}

/// What an extension 3 gives of the RTP header.
#[derive(Clone, Copy)]
pub(crate) struct RtpGiven {
    pub marker: bool,
    pub extension: bool,
    pub padding: Option<bool>,
    pub payload_type: Option<u8>,
    pub stride: Option<u32>,
    ghost payload_type_fits: { ForSome payload_type (λ n. n < 128) },
    ghost stride_some: { ForSome stride (λ n. 1 ≤ n) },
    ghost stride_fits: { ForSome stride (λ n. n ≤ 536870911) },
}

/// The content of an extension 3, with the fields that precede it.
#[derive(Clone, Copy)]
pub(crate) struct Extension3 {
    pub fields: Fields,
    pub marker: bool,
    pub values: Values,
}

/// The content of a packet up to the end of its extension.
#[derive(Clone, Copy)]
pub(crate) struct Head {
    pub kind: FormKind,
    /// The RND in force.
    pub rnd: bool,
    pub fields: Fields,
    pub tsc: Option<bool>,
    pub marker: bool,
    pub values: Option<Values>,
}
