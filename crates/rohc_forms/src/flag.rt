//! The flags of an extension 3 (RFC 3095 5.7.5), each by its place in its octet. Place 0 is the least
//! significant bit.

// The extension's first octet: 11 S R-TS Tsc I ip rtp.

/// Eight more bits of the sequence number follow.
pub(crate) const S: u8 = 5;
/// A self-describing value with more bits of the timestamp follows.
pub(crate) const R_TS: u8 = 4;
/// Tsc: the timestamp's bits are scaled.
pub(crate) const TSC: u8 = 3;
/// The whole offset of the Identification follows, in two octets.
pub(crate) const I: u8 = 2;
/// The ip octet follows.
pub(crate) const IP: u8 = 1;
/// The rtp octet follows.
pub(crate) const RTP: u8 = 0;

// The ip octet: TOS TTL DF PR IPX NBO RND ip2.

/// TOS follows.
pub(crate) const TOS: u8 = 7;
/// TTL follows.
pub(crate) const TTL: u8 = 6;
/// The flag Don't Fragment.
pub(crate) const DF: u8 = 5;
/// The protocol follows.
pub(crate) const PR: u8 = 4;
/// A list of extension headers follows.
pub(crate) const IPX: u8 = 3;
/// The Identification is in network byte order.
pub(crate) const NBO: u8 = 2;
/// The Identification is random.
pub(crate) const RND: u8 = 1;
/// A second IP header follows.
pub(crate) const IP2: u8 = 0;

// The rtp octet: Mode(2) R-PT M R-X CSRC TSS TIS.

/// The octet of P and PT follows.
pub(crate) const R_PT: u8 = 5;
/// RTP's marker.
pub(crate) const M: u8 = 4;
/// RTP's extension flag.
pub(crate) const R_X: u8 = 3;
/// A list of contributing sources follows.
pub(crate) const CSRC: u8 = 2;
/// TS_STRIDE follows.
pub(crate) const TSS: u8 = 1;
/// TIME_STRIDE follows.
pub(crate) const TIS: u8 = 0;

// The octet that R-PT names: P PT(7).

/// RTP's padding flag.
pub(crate) const P: u8 = 7;
