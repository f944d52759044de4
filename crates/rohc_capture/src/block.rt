//! The blocks of a capture of pcapng: sections, interfaces, packets.

ghost use Rattle.std.specs.Prelude.{◌≡◌, ◌+◌, ◌*◌, ◌^◌};
ghost use Rattle.rohc_capture.specs.Block.{order_of, enhanced_in, simple_in, obsolete_in};

use crate::number::{ByteOrder, long, short};

/// The type of the block that begins a section, the same in either order.
pub(crate) const SECTION: u32 = 0x0a0d_0d0a;

/// The type of the block that describes an interface.
pub(crate) const INTERFACE: u32 = 1;

/// The type of the obsolete block of a packet.
pub(crate) const OBSOLETE: u32 = 2;

/// The type of the block of a packet without a time.
pub(crate) const SIMPLE: u32 = 3;

/// The type of the block of a packet.
pub(crate) const ENHANCED: u32 = 6;

/// The unit of times if an interface names none: 10^-6 seconds.
const MICROSECONDS: u8 = 6;

/// What a section says of an interface.
#[derive(Clone, Copy, PartialEq, Eq)]
pub(crate) struct Interface {
    pub link_type: u16,
    /// The most octets that are captured of a frame; 0 is no limit.
    pub longest: u32,
    /// The unit of times: 10^-n seconds, or 2^-n with 128 added.
    pub resolution: u8,
}

/// What stands before the octets of a packet.
#[derive(Clone, Copy, PartialEq, Eq)]
pub(crate) struct PacketHead {
    /// The interface by its place in the section.
    pub interface: u32,
    /// The time in units of the interface, if the block has one.
    pub ticks: Option<u64>,
    /// How many octets were captured.
    pub captured: u32,
    /// How many octets the frame had.
    pub original: u32,
}

/// The octet order of a section, by four octets of its first block as a number, most significant first.
pub(crate) fn order_of(magic: u32) -> Option<ByteOrder>
    ensures { result ≡ order_of magic }
{
    match magic {
        0x1a2b_3c4d => Some(ByteOrder::Big),
        0x4d3c_2b1a => Some(ByteOrder::Little),
        _ => None,
    }
}

/// The time unit among the options of an interface, option 9; the first if there are several.
fn resolution_in(order: ByteOrder, options: &[u8]) -> u8 {
    let mut rest = options;
    for _ in 0..options.len() {
        let Some((code, behind)) = short(order, rest) else {
            return MICROSECONDS;
        };
        let Some((count, behind)) = short(order, behind) else {
            return MICROSECONDS;
        };
        if code == 9 && count == 1 {
            return match behind.first() {
                Some(unit) => *unit,
                None => MICROSECONDS,
            };
        }
        let padded = (usize::from(count) + 3) / 4 * 4;
        if code == 0 || behind.len() < padded {
            return MICROSECONDS;
        }
        rest = &behind[padded..];
    }
    MICROSECONDS
}

/// The interface that a block's body describes.
pub(crate) fn interface_in(order: ByteOrder, body: &[u8]) -> Option<Interface> {
    let (link_type, rest) = short(order, body)?;
    let (_reserved, rest) = short(order, rest)?;
    let (longest, options) = long(order, rest)?;
    Some(Interface {
        link_type,
        longest,
        resolution: resolution_in(order, options),
    })
}

/// A time from its high and its low half.
fn joined(high: u32, low: u32) -> u64
    ensures { result ≡ high * 2 ^ 32 + low }
{
    u64::from(high) * 4_294_967_296 + u64::from(low)
}

/// The head of a packet's block, in 20 octets.
#[tactic(auto, unfolding(crate::specs::Block::enhanced_in))]
pub(crate) fn enhanced_in(order: ByteOrder, body: &[u8]) -> Option<PacketHead>
    ensures { result ≡ enhanced_in order body.now }
{
    let (interface, rest) = long(order, body)?;
    let (high, rest) = long(order, rest)?;
    let (low, rest) = long(order, rest)?;
    let (captured, rest) = long(order, rest)?;
    let (original, _) = long(order, rest)?;
    Some(PacketHead {
        interface,
        ticks: Some(joined(high, low)),
        captured,
        original,
    })
}

/// The head of a packet's obsolete block, in 20 octets.
#[tactic(auto, unfolding(crate::specs::Block::obsolete_in))]
pub(crate) fn obsolete_in(order: ByteOrder, body: &[u8]) -> Option<PacketHead>
    ensures { result ≡ obsolete_in order body.now }
{
    let (interface, rest) = short(order, body)?;
    let (_drops, rest) = short(order, rest)?;
    let (high, rest) = long(order, rest)?;
    let (low, rest) = long(order, rest)?;
    let (captured, rest) = long(order, rest)?;
    let (original, _) = long(order, rest)?;
    Some(PacketHead {
        interface: u32::from(interface),
        ticks: Some(joined(high, low)),
        captured,
        original,
    })
}

/// The head of the block of a packet without a time, in 4 octets: of the frame at most `longest` octets were captured,
/// if that isn't 0.
#[tactic(auto, unfolding(crate::specs::Block::simple_in))]
pub(crate) fn simple_in(order: ByteOrder, longest: u32, body: &[u8]) -> Option<PacketHead>
    ensures { result ≡ simple_in order longest body.now }
{
    let (original, _) = long(order, body)?;
    let captured = if 0 < longest && longest < original {
        longest
    } else {
        original
    };
    Some(PacketHead {
        interface: 0,
        ticks: None,
        captured,
        original,
    })
}
