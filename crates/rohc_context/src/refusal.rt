//! The thirty refusals, with their names and numbers.

ghost use Rattle.std.specs.Prelude.{◌≡◌, ◌≢◌, ◌≤◌, Some, IfSome, IfNone, slice_get};
ghost use Rattle.rohc_context.specs.Refusal.{name_of, number_of, StandAtNumbers};

use rohc_frame::FrameRefusal;
use std::fmt;

/// Why a packet is refused: it delivers nothing and stores nothing. Each has its number, 1 to 30.
#[derive(Clone, Copy, Debug, PartialEq, Eq)]
pub enum Refusal {
    /// The packet has no octets.
    Empty = 1,
    /// A feedback element's Size octet or data is cut off.
    FeedbackShort = 2,
    /// A feedback type octet follows an Add-CID octet.
    AfterAddCid = 3,
    /// Type octet FE or FF.
    Segment = 4,
    /// Type octet F9, FA or FB, or an octet E0 to EF after an Add-CID octet.
    ReservedType = 5,
    /// An Add-CID octet on a link of large CIDs.
    AddCidOnLarge = 6,
    /// The first octet of a large CID starts with the bits 11.
    LargeCid = 7,
    /// The CID is above the link's greatest.
    CidRange = 8,
    /// The packet ends after an Add-CID octet, or before a large CID is complete.
    NoHeader = 9,
    /// The CID has no record that counts, and the packet isn't an IR.
    NoContext = 10,
    /// The Profile octet is neither 00 nor 01, or it is 00 in an IR-DYN or in an IR with a dynamic
    /// chain (type octet FD).
    Profile = 11,
    /// An IR-DYN with Profile octet 01 for a record of profile 0x0000.
    ProfileChange = 12,
    /// The packet ends inside its header.
    Truncated = 13,
    /// The IP version in a static chain isn't 4.
    IpVersion = 14,
    /// The protocol in a static chain or an extension 3 isn't 17, which is UDP.
    Protocol = 15,
    /// A list of extension headers isn't one octet 00, or flag IPX is set.
    ExtensionList = 16,
    /// The RTP version isn't 2.
    RtpVersion = 17,
    /// CC isn't 0, a CSRC list isn't one octet 00, or flag CSRC is set.
    Csrc = 18,
    /// TS_STRIDE is 0.
    ZeroStride = 19,
    /// Mode 3, which is the reliable mode, in a dynamic chain or an extension 3.
    ReliableMode = 20,
    /// Flag ip2: there is an outer IP header.
    OuterHeader = 21,
    /// Tsc is 1, but no TS_STRIDE is in force.
    NoStride = 22,
    /// An extension 3 of a UO-1-ID gives RND 1.
    RndInUo1 = 23,
    /// Flag I is set, but the RND in force is 1, so the Identification would be there twice.
    IpIdTwice = 24,
    /// Octets follow the static chain of an IR with D=0.
    Trailing = 25,
    /// The rebuilt packet of profile 0x0001 would be longer than 65,535 octets.
    TooLong = 26,
    /// The state doesn't take this kind of packet.
    StateTooLow = 27,
    /// The check doesn't match.
    Check = 28,
    /// There is no such link.
    NoLink = 29,
    /// There is no memory for a first record.
    NoMemory = 30,
}

/// The refusals in the order of their numbers.
const ALL: [Refusal; 30] = [
    Refusal::Empty,
    Refusal::FeedbackShort,
    Refusal::AfterAddCid,
    Refusal::Segment,
    Refusal::ReservedType,
    Refusal::AddCidOnLarge,
    Refusal::LargeCid,
    Refusal::CidRange,
    Refusal::NoHeader,
    Refusal::NoContext,
    Refusal::Profile,
    Refusal::ProfileChange,
    Refusal::Truncated,
    Refusal::IpVersion,
    Refusal::Protocol,
    Refusal::ExtensionList,
    Refusal::RtpVersion,
    Refusal::Csrc,
    Refusal::ZeroStride,
    Refusal::ReliableMode,
    Refusal::OuterHeader,
    Refusal::NoStride,
    Refusal::RndInUo1,
    Refusal::IpIdTwice,
    Refusal::Trailing,
    Refusal::TooLong,
    Refusal::StateTooLow,
    Refusal::Check,
    Refusal::NoLink,
    Refusal::NoMemory,
];

impl Refusal {
    /// The refusals in the order of their numbers.
    pub fn all() -> [Refusal; 30]
        ensures { StandAtNumbers result }
    {
        ALL
    }

    /// The refusal's name, as answer lines show it.
    pub fn name(&self) -> &'static str
        ensures { result.now ≡ name_of self.now }
    {
        match self {
            Refusal::Empty => "Empty",
            Refusal::FeedbackShort => "FeedbackShort",
            Refusal::AfterAddCid => "AfterAddCid",
            Refusal::Segment => "Segment",
            Refusal::ReservedType => "ReservedType",
            Refusal::AddCidOnLarge => "AddCidOnLarge",
            Refusal::LargeCid => "LargeCid",
            Refusal::CidRange => "CidRange",
            Refusal::NoHeader => "NoHeader",
            Refusal::NoContext => "NoContext",
            Refusal::Profile => "Profile",
            Refusal::ProfileChange => "ProfileChange",
            Refusal::Truncated => "Truncated",
            Refusal::IpVersion => "IpVersion",
            Refusal::Protocol => "Protocol",
            Refusal::ExtensionList => "ExtensionList",
            Refusal::RtpVersion => "RtpVersion",
            Refusal::Csrc => "Csrc",
            Refusal::ZeroStride => "ZeroStride",
            Refusal::ReliableMode => "ReliableMode",
            Refusal::OuterHeader => "OuterHeader",
            Refusal::NoStride => "NoStride",
            Refusal::RndInUo1 => "RndInUo1",
            Refusal::IpIdTwice => "IpIdTwice",
            Refusal::Trailing => "Trailing",
            Refusal::TooLong => "TooLong",
            Refusal::StateTooLow => "StateTooLow",
            Refusal::Check => "Check",
            Refusal::NoLink => "NoLink",
            Refusal::NoMemory => "NoMemory",
        }
    }

    /// The refusal's number, 1 to 30.
    pub fn number(&self) -> u8
        ensures number { result ≡ number_of self.now }
        ensures from { 1 ≤ result }
        ensures to { result ≤ 30 }
    {
        *self as u8
    }

    /// The refusal with this number, if there is one.
    pub fn of_number(number: u8) -> Option<Refusal>
        ensures some { IfSome result (λ r. number_of r ≡ number) }
        ensures none { IfNone result ((r : Refusal) → number_of r ≢ number) }
        ensures each { (r : Refusal) → number_of r ≡ number → result ≡ Some r }
    {
        let place = number.checked_sub(1)?;
        refusal_at(&ALL, usize::from(place))
    }
}

/// The refusal at this place.
fn refusal_at(refusals: &[Refusal], place: usize) -> Option<Refusal>
    ensures { result ≡ slice_get refusals.now place }
{
    refusals.get(place).copied()
}

impl From<FrameRefusal> for Refusal {
    ghost use Rattle.std.specs.Prelude.{◌≡◌};
    ghost use Rattle.rohc_context.specs.Framing.{refusal_of_framing};

    ghost from_gives = { λ framing refusal. refusal ≡ refusal_of_framing framing };

    /// The refusal of framing, under the same name.
    fn from(framing: FrameRefusal) -> Refusal {
        match framing {
            FrameRefusal::Empty => Refusal::Empty,
            FrameRefusal::FeedbackShort => Refusal::FeedbackShort,
            FrameRefusal::AfterAddCid => Refusal::AfterAddCid,
            FrameRefusal::Segment => Refusal::Segment,
            FrameRefusal::ReservedType => Refusal::ReservedType,
            FrameRefusal::AddCidOnLarge => Refusal::AddCidOnLarge,
            FrameRefusal::LargeCid => Refusal::LargeCid,
            FrameRefusal::CidRange => Refusal::CidRange,
            FrameRefusal::NoHeader => Refusal::NoHeader,
        }
    }
}

impl fmt::Display for Refusal {
    fn fmt<W: fmt::Write>(&self, f: &mut fmt::Formatter<W>) -> fmt::Result {
        f.write_str(self.name())
    }
}
