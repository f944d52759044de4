//! The settings of a link's contexts.

use rohc_frame::CidKind;

/// The mode of operation (RFC 3095 4.4), which decides whether feedback is sent.
#[derive(Clone, Copy, Debug, Default, PartialEq, Eq)]
pub enum Mode {
    /// Unidirectional: no feedback is sent.
    #[default]
    U,
    /// Bidirectional optimistic: feedback is sent.
    O,
}

/// The settings of the contexts of a link.
#[derive(Clone, Copy, Debug, PartialEq, Eq)]
pub struct Settings {
    /// Whether CIDs are small or large.
    pub size: CidKind,
    /// The greatest CID: at most 15 for small CIDs, at most 16,383 for large ones.
    pub max_cid: u16,
    /// The mode, which decides whether feedback is sent.
    pub mode: Mode,
    /// How many failures among the last `n1` outcomes lead from Full to Static Context, or make a
    /// NACK due in Static Context: 1 to `n1`.
    pub k1: u8,
    /// The number of outcomes that `k1` is compared with, at most 64.
    pub n1: u8,
    /// How many failures among the last `n2` outcomes lead from Static to No Context: 1 to `n2`.
    pub k2: u8,
    /// The number of outcomes that `k2` is compared with, at most 64.
    pub n2: u8,
    /// The time between two packets of a sender, in milliseconds, 1 to 60,000.
    pub packet_ms: u32,
    /// The least time between two STATIC-NACKs, in milliseconds, at most 3,600,000.
    pub static_nack_ms: u32,
    /// A record counts as none if no arrival was accepted for this many milliseconds. It is at most
    /// 86,400,000; 0 means that a record always counts.
    pub idle_ms: u32,
}

impl Settings {
    ghost use Rattle.std.specs.Prelude.{◌↔◌, IsTrue};
    ghost use Rattle.rohc_context.specs.Settings.{AreGood};

    /// Whether every setting is within its limits.
    pub fn is_good(&self) -> bool
        ensures { IsTrue result ↔ AreGood self.now }
    {
        self.max_cid <= self.size.greatest_cid()
            && (1..=self.n1).contains(&self.k1)
            && self.n1 <= 64
            && (1..=self.n2).contains(&self.k2)
            && self.n2 <= 64
            && (1..=60_000).contains(&self.packet_ms)
            && self.static_nack_ms <= 3_600_000
            && self.idle_ms <= 86_400_000
    }
}
