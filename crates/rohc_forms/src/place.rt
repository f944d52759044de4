//! The fields of the base octets (RFC 3095 5.7.1 to 5.7.4), each by its place in their number: how many less
//! significant bits follow it.

// The first octet of a UO-1: the bits 10, then T under RND 0, and more.

/// The T bit of a UO-1 under RND 0: set in a UO-1-TS, clear in a UO-1-ID.
pub(crate) const UO1_T: u8 = 5;

// UO-0: 0 SN CRC. UO-1: 10 TS M SN CRC, 10 T=0 IP-ID X SN CRC, 10 T=1 TS M SN CRC.

/// Bits of the timestamp of a UO-1.
pub(crate) const UO1_TS: u8 = 8;
/// Bits of the Identification's offset.
pub(crate) const UO1_ID: u8 = 8;
/// RTP's marker.
pub(crate) const UO1_M: u8 = 7;
/// Whether an extension follows.
pub(crate) const UO1_X: u8 = 7;
/// Bits of the sequence number of a UO-0 or UO-1.
pub(crate) const UO_SN: u8 = 3;

// UOR-2: 110 TS M SN X CRC, 110 IP-ID T=0 M SN X CRC, 110 TS T=1 M SN X CRC.

/// Bits of the timestamp of a UOR-2 without a T bit.
pub(crate) const UOR2_TS: u8 = 15;
/// Bits of the timestamp or of the Identification's offset, in a UOR-2 with a T bit.
pub(crate) const UOR2_BEFORE_T: u8 = 16;
/// The T bit of a UOR-2 under RND 0: set in a UOR-2-TS, clear in a UOR-2-ID.
pub(crate) const UOR2_T: u8 = 15;
/// RTP's marker.
pub(crate) const UOR2_M: u8 = 14;
/// Bits of the sequence number.
pub(crate) const UOR2_SN: u8 = 8;
/// Whether an extension follows.
pub(crate) const UOR2_X: u8 = 7;
