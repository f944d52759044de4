//! The content of single chains.

/// The content of the dynamic chain of IPv4.
#[derive(Clone, Copy)]
pub(crate) struct IpDynamic {
    pub tos: u8,
    pub ttl: u8,
    pub id: u16,
    pub df: bool,
    pub rnd: bool,
    pub nbo: bool,
}

/// The content of the dynamic chain of RTP.
#[derive(Clone, Copy)]
pub(crate) struct RtpDynamic {
    pub padding: bool,
    pub extension: bool,
    pub marker: bool,
    pub payload_type: u8,
    pub sn: u16,
    pub ts: u32,
    pub stride: Option<u32>,
}

/// The context's values that stay if a dynamic chain doesn't give them: RTP's X and TS_STRIDE.
#[derive(Clone, Copy)]
pub(crate) struct Kept {
    pub extension: bool,
    pub stride: Option<u32>,
}

impl Kept {
    /// The values that are kept for an IR: none.
    pub(crate) const NOTHING: Kept = Kept {
        extension: false,
        stride: None,
    };
}
