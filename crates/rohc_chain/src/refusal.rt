//! Why an IR or IR-DYN packet is refused.

/// The refusals of chains (RFC 3095 5.7.7 and 5.10).
#[derive(Clone, Copy, Debug, PartialEq, Eq)]
pub enum ChainRefusal {
    /// The Profile octet is neither 00 nor 01, or it is 00 where only 01 is allowed.
    Profile,
    /// An IR-DYN of profile 0x0001 for a context of profile 0x0000.
    ProfileChange,
    /// The packet ends inside its header.
    Truncated,
    /// The IP version isn't 4.
    IpVersion,
    /// The protocol isn't 17, which is UDP.
    Protocol,
    /// The list of extension headers isn't one octet 00.
    ExtensionList,
    /// The RTP version isn't 2.
    RtpVersion,
    /// The number of contributing sources isn't 0, or their list isn't one octet 00.
    Csrc,
    /// TS_STRIDE is 0.
    ZeroStride,
    /// Mode 3, which is the reliable mode.
    ReliableMode,
    /// Octets follow the static chain of an IR without a dynamic chain.
    Trailing,
    /// The rebuilt packet would be longer than 65,535 octets.
    TooLong,
    /// The 8-bit check doesn't match.
    Check,
}
