//! What each refusal means, what usually causes it, and where it is defined.

use rohc_context::Refusal;

/// What stands behind a refusal.
#[derive(Clone, Copy, PartialEq, Eq)]
pub struct Cause {
    /// The refusal.
    pub refusal: Refusal,
    /// What it means, as the end of a sentence.
    pub meaning: &'static str,
    /// What usually causes it.
    pub usual: &'static str,
    /// Where it is defined.
    pub section: &'static str,
}

/// The causes, in the order of the refusals' numbers.
const CAUSES: [Cause; 30] = [
    Cause {
        refusal: Refusal::Empty,
        meaning: "the packet has no octets",
        usual: "the sender sends empty datagrams",
        section: "RFC 5795 5.2",
    },
    Cause {
        refusal: Refusal::FeedbackShort,
        meaning: "a feedback element is cut off",
        usual: "damage, or a truncated packet",
        section: "RFC 5795 5.2.4.1",
    },
    Cause {
        refusal: Refusal::AfterAddCid,
        meaning: "feedback follows an Add-CID octet",
        usual: "damage",
        section: "RFC 5795 5.2",
    },
    Cause {
        refusal: Refusal::Segment,
        meaning: "the packet is a segment",
        usual: "the peer uses segmentation: set its MRRU to 0",
        section: "RFC 5795 5.2.5",
    },
    Cause {
        refusal: Refusal::ReservedType,
        meaning: "the type octet is reserved",
        usual: "damage, or a peer that follows a later standard",
        section: "RFC 5795 5.2",
    },
    Cause {
        refusal: Refusal::AddCidOnLarge,
        meaning: "the packet has an Add-CID octet, and the link has large CIDs",
        usual: "the links file has cid = \"large\", but the peer uses small CIDs",
        section: "RFC 5795 5.1.3",
    },
    Cause {
        refusal: Refusal::LargeCid,
        meaning: "the large CID has more than two octets",
        usual: "the links file has cid = \"large\", but the peer uses small CIDs; or damage",
        section: "RFC 5795 5.3.2",
    },
    Cause {
        refusal: Refusal::CidRange,
        meaning: "the CID is above max_cid",
        usual: "max_cid is too small, or damage",
        section: "RFC 5795 5.1.2",
    },
    Cause {
        refusal: Refusal::NoHeader,
        meaning: "the packet ends before its CID is complete",
        usual: "a truncated packet, or the wrong cid in the links file",
        section: "RFC 5795 5.2",
    },
    Cause {
        refusal: Refusal::NoContext,
        meaning: "the CID has no context, or an expired one, and the packet is not an IR",
        usual: "the call started before this program did, the link was reset, or idle_ms passed: wait for the next IR",
        section: "RFC 3095 5.3.2",
    },
    Cause {
        refusal: Refusal::Profile,
        meaning: "the profile is neither 0x0000 nor 0x0001, or it is 0x0000 in an IR-DYN or in an IR with a dynamic chain",
        usual: "the compressor uses another profile, or the links file has the wrong cid",
        section: "RFC 3095 8",
    },
    Cause {
        refusal: Refusal::ProfileChange,
        meaning: "an IR-DYN would change the profile",
        usual: "the compressor changes profiles without an IR",
        section: "RFC 3095 5.2.4",
    },
    Cause {
        refusal: Refusal::Truncated,
        meaning: "the packet ends inside its header",
        usual: "a truncated packet",
        section: "RFC 3095 5.7",
    },
    Cause {
        refusal: Refusal::IpVersion,
        meaning: "the IP version isn't 4",
        usual: "the call uses IPv6",
        section: "RFC 3095 5.7.7.4",
    },
    Cause {
        refusal: Refusal::Protocol,
        meaning: "the protocol isn't UDP",
        usual: "the call isn't RTP over UDP",
        section: "RFC 3095 5.7.7.4",
    },
    Cause {
        refusal: Refusal::ExtensionList,
        meaning: "there is a list of extension headers",
        usual: "IP options or extension headers",
        section: "RFC 3095 5.8",
    },
    Cause {
        refusal: Refusal::RtpVersion,
        meaning: "the RTP version isn't 2",
        usual: "damage that no CRC has caught yet, or the call isn't RTP",
        section: "RFC 3095 5.7.7.6",
    },
    Cause {
        refusal: Refusal::Csrc,
        meaning: "there are contributing sources",
        usual: "a mixer adds CSRCs to RTP",
        section: "RFC 3095 5.8",
    },
    Cause {
        refusal: Refusal::ZeroStride,
        meaning: "TS_STRIDE is 0",
        usual: "a faulty compressor",
        section: "RFC 3095 4.5.3",
    },
    Cause {
        refusal: Refusal::ReliableMode,
        meaning: "the compressor asks for R mode",
        usual: "the compressor is set up for R mode: allow it only U and O mode",
        section: "RFC 3095 5.5",
    },
    Cause {
        refusal: Refusal::OuterHeader,
        meaning: "there is a second IP header",
        usual: "the call comes through a tunnel",
        section: "RFC 3095 5.7.5",
    },
    Cause {
        refusal: Refusal::NoStride,
        meaning: "the timestamp is scaled, and no stride is known",
        usual: "the stride was lost with the context, or the compressor is faulty",
        section: "RFC 3095 4.5.3",
    },
    Cause {
        refusal: Refusal::RndInUo1,
        meaning: "a UO-1-ID says that the IP-ID is random",
        usual: "a faulty compressor, or damage",
        section: "RFC 3095 5.7.5",
    },
    Cause {
        refusal: Refusal::IpIdTwice,
        meaning: "the packet has the IP-ID twice",
        usual: "a faulty compressor, or damage",
        section: "RFC 3095 5.7.5",
    },
    Cause {
        refusal: Refusal::Trailing,
        meaning: "an IR without a dynamic chain has octets after its static chain",
        usual: "a faulty compressor",
        section: "RFC 3095 5.7.7.1",
    },
    Cause {
        refusal: Refusal::TooLong,
        meaning: "the rebuilt packet would have more than 65,535 octets",
        usual: "the payload is too long for an IP packet",
        section: "RFC 791 3.1",
    },
    Cause {
        refusal: Refusal::StateTooLow,
        meaning: "the context's state doesn't accept this kind of packet",
        usual: "earlier damage or losses: check that feedback reaches the compressor",
        section: "RFC 3095 5.3.2.2",
    },
    Cause {
        refusal: Refusal::Check,
        meaning: "the rebuilt header doesn't have the packet's CRC",
        usual: "damage, or more losses in a row than the compressor expects",
        section: "RFC 3095 5.3.2.2",
    },
    Cause {
        refusal: Refusal::NoLink,
        meaning: "there is no link with this number",
        usual: "the script or the sender has another link number",
        section: "docs/FORMATS.md",
    },
    Cause {
        refusal: Refusal::NoMemory,
        meaning: "there was no memory for the first context of a CID",
        usual: "the machine is short of memory",
        section: "docs/OPERATING.md",
    },
];

/// What the refusal means, and what usually causes it. Every refusal has a row.
pub fn cause_of(refusal: Refusal) -> Cause {
    CAUSES[usize::from(refusal.number() - 1)]
}
