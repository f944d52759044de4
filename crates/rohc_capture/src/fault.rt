//! Why a capture can't be read on, and why a frame carries nothing.

use std::alloc::AllocError;
use std::fmt;

/// Why a capture can't be read on.
#[derive(Clone, Copy, PartialEq, Eq)]
pub enum FaultKind {
    /// There is no memory.
    NoMemory,
    /// A read failed.
    Read,
    /// The first octets are those of no capture that is known.
    NotACapture,
    /// The capture ends in the middle of a record or a block.
    CutOff,
    /// A record or a block is longer than 1 MiB.
    TooLong,
    /// A block's two lengths differ, or its length is no multiple of four, or too short for its kind.
    BlockLength,
    /// A section has an octet order that isn't known.
    ByteOrder,
    /// A packet is of an interface that its section doesn't describe.
    NoInterface,
    /// A section describes more than 65,536 interfaces.
    TooManyInterfaces,
}

/// Why a capture can't be read on, and where: the octets of the capture before the record or the block.
#[derive(Clone, Copy, PartialEq, Eq)]
pub struct CaptureFault {
    /// What is wrong.
    pub kind: FaultKind,
    /// How many octets of the capture stand before the record or the block.
    pub place: u64,
}

impl FaultKind {
    ghost use Rattle.std.specs.Prelude.{◌≡◌};
    ghost use Rattle.rohc_capture.specs.Names.{fault_name};

    /// The name of the fault.
    pub fn name(&self) -> &'static str
        ensures { result.now ≡ fault_name self.now }
    {
        match self {
            FaultKind::NoMemory => "NoMemory",
            FaultKind::Read => "Read",
            FaultKind::NotACapture => "NotACapture",
            FaultKind::CutOff => "CutOff",
            FaultKind::TooLong => "TooLong",
            FaultKind::BlockLength => "BlockLength",
            FaultKind::ByteOrder => "ByteOrder",
            FaultKind::NoInterface => "NoInterface",
            FaultKind::TooManyInterfaces => "TooManyInterfaces",
        }
    }
}

impl From<AllocError> for FaultKind {
    fn from(_: AllocError) -> FaultKind {
        FaultKind::NoMemory
    }
}

impl fmt::Display for CaptureFault {
    fn fmt<W: fmt::Write>(&self, f: &mut fmt::Formatter<W>) -> fmt::Result {
        write!(f, "octet {}: {}", self.place, self.kind.name())
    }
}

/// Why a frame carries nothing that is looked for.
#[derive(Clone, Copy, PartialEq, Eq)]
pub enum FrameFault {
    /// Frames of this link type aren't known.
    LinkType,
    /// Not all octets of the frame were captured.
    NotWhole,
    /// The frame ends within a header.
    Short,
    /// The frame has more than eight VLAN tags.
    Tags,
    /// Neither ROHC nor IPv4.
    Protocol,
    /// The IP version isn't 4, or the header has fewer than five words.
    IpHeader,
    /// The IP total length is shorter than the header, or longer than the frame.
    IpLength,
    /// The IP packet is a fragment.
    Fragment,
    /// The IP packet carries no UDP.
    NotUdp,
    /// The UDP length is shorter than its header, or longer than the IP packet.
    UdpLength,
    /// What the frame carries is shorter than the offset of the packet in it.
    Offset,
}

/// How many faults of frames there are.
pub const FRAME_FAULTS: usize = 11;

impl FrameFault {
    ghost use Rattle.std.specs.Prelude.{◌≡◌};
    ghost use Rattle.rohc_capture.specs.Names.{frame_fault_name};

    /// All faults, in the order in which they are told.
    pub const ALL: [FrameFault; FRAME_FAULTS] = [
        FrameFault::LinkType,
        FrameFault::NotWhole,
        FrameFault::Short,
        FrameFault::Tags,
        FrameFault::Protocol,
        FrameFault::IpHeader,
        FrameFault::IpLength,
        FrameFault::Fragment,
        FrameFault::NotUdp,
        FrameFault::UdpLength,
        FrameFault::Offset,
    ];

    /// The name of the fault.
    pub fn name(&self) -> &'static str
        ensures { result.now ≡ frame_fault_name self.now }
    {
        match self {
            FrameFault::LinkType => "LinkType",
            FrameFault::NotWhole => "NotWhole",
            FrameFault::Short => "Short",
            FrameFault::Tags => "Tags",
            FrameFault::Protocol => "Protocol",
            FrameFault::IpHeader => "IpHeader",
            FrameFault::IpLength => "IpLength",
            FrameFault::Fragment => "Fragment",
            FrameFault::NotUdp => "NotUdp",
            FrameFault::UdpLength => "UdpLength",
            FrameFault::Offset => "Offset",
        }
    }
}
