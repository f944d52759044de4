//! Why a trace ended early.

use thiserror::Error;

/// Why a trace ended early.
#[derive(Clone, Copy, Debug, PartialEq, Eq, Error)]
pub enum TraceFault {
    /// There is no memory.
    #[error("NoMemory")]
    NoMemory,
    /// A read failed.
    #[error("Read")]
    Read,
    /// A write or a flush failed.
    #[error("Write")]
    Write,
}
