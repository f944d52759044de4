//! The heads of a capture of pcap: of the file, and of each record.

ghost use Rattle.std.specs.Prelude.{◌≡◌};
ghost use Rattle.rohc_capture.specs.Pcap.{magic_of, nanos_of, file_in, record_in};

use crate::number::{ByteOrder, long};

/// What the head of a file says.
#[derive(Clone, Copy, PartialEq, Eq)]
pub(crate) struct PcapHead {
    pub order: ByteOrder,
    /// Whether fractions of a second are nanoseconds, and not microseconds.
    pub is_nano: bool,
    pub link_type: u16,
}

/// What the head of a record says.
#[derive(Clone, Copy, PartialEq, Eq)]
pub(crate) struct RecordHead {
    /// When the frame was captured, in nanoseconds since 1970.
    pub nanos: u64,
    /// How many octets were captured.
    pub captured: u32,
    /// How many octets the frame had.
    pub original: u32,
}

/// The octet order, and whether fractions are nanoseconds, by the first four octets as a number, most significant first.
fn magic_of(magic: u32) -> Option<(ByteOrder, bool)>
    ensures { result ≡ magic_of magic }
{
    match magic {
        0xa1b2_c3d4 => Some((ByteOrder::Big, false)),
        0xa1b2_3c4d => Some((ByteOrder::Big, true)),
        0xd4c3_b2a1 => Some((ByteOrder::Little, false)),
        0x4d3c_b2a1 => Some((ByteOrder::Little, true)),
        _ => None,
    }
}

/// The head of a file, in 24 octets.
#[tactic(auto, unfolding(crate::specs::Pcap::file_in))]
pub(crate) fn file_in(octets: &[u8]) -> Option<PcapHead>
    ensures { result ≡ file_in octets.now }
{
    let (magic, rest) = long(ByteOrder::Big, octets)?;
    let (order, is_nano) = magic_of(magic)?;
    let (_version, rest) = long(order, rest)?;
    let (_zone, rest) = long(order, rest)?;
    let (_figures, rest) = long(order, rest)?;
    let (_longest, rest) = long(order, rest)?;
    let (link, _) = long(order, rest)?;
    Some(PcapHead {
        order,
        is_nano,
        link_type: (link % 65_536) as u16,
    })
}

/// Nanoseconds since 1970.
fn nanos_of(is_nano: bool, seconds: u32, fraction: u32) -> u64
    ensures { result ≡ nanos_of is_nano seconds fraction }
{
    let unit = if is_nano { 1 } else { 1000 };
    u64::from(seconds) * 1_000_000_000 + u64::from(fraction) * unit
}

/// The head of a record, in 16 octets.
#[tactic(auto, unfolding(crate::specs::Pcap::record_in))]
pub(crate) fn record_in(head: PcapHead, octets: &[u8]) -> Option<RecordHead>
    ensures { result ≡ record_in head octets.now }
{
    let (seconds, rest) = long(head.order, octets)?;
    let (fraction, rest) = long(head.order, rest)?;
    let (captured, rest) = long(head.order, rest)?;
    let (original, _) = long(head.order, rest)?;
    Some(RecordHead {
        nanos: nanos_of(head.is_nano, seconds, fraction),
        captured,
        original,
    })
}
