//! Why a replay ended early.

use thiserror::Error;

/// Why a replay ended early.
#[derive(Clone, Copy, Debug, PartialEq, Eq, Error)]
pub enum RunFault {
    /// There is no memory. Nothing was read or written, and the concentrator is unchanged.
    #[error("NoMemory")]
    NoMemory,
    /// A read failed. The answers of the finished lines were written: this many octets.
    #[error("Read")]
    Read { written: u64 },
    /// A write or the flush failed, after this many octets were written.
    #[error("Write")]
    Write { written: u64 },
}
