//! Why a run over a capture ended early.

use rohc_capture::CaptureFault;
use std::fmt;

/// Why a run over a capture ended early.
#[derive(Clone, Copy, PartialEq, Eq)]
pub enum BulkFault {
    /// The capture can't be read on.
    Capture(CaptureFault),
    /// A packet is longer than 262,144 octets or, in pcap, its time lies after 2106; or a write failed.
    Write,
}

impl From<CaptureFault> for BulkFault {
    fn from(fault: CaptureFault) -> BulkFault {
        BulkFault::Capture(fault)
    }
}

impl fmt::Display for BulkFault {
    fn fmt<W: fmt::Write>(&self, f: &mut fmt::Formatter<W>) -> fmt::Result {
        match self {
            BulkFault::Capture(fault) => write!(f, "{fault}"),
            BulkFault::Write => f.write_str("write"),
        }
    }
}
