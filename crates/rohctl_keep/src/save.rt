//! A save that was copied, and why one wasn't.

use rohc_loop::Unwritten;
use rohc_text::Reason;

/// A save, as the system shows its file.
#[derive(Clone, Copy, PartialEq, Eq)]
pub struct Save {
    /// When it was written, in milliseconds since 1970.
    pub date: u64,
    /// How many octets it has.
    pub size: u64,
}

/// Why a save wasn't copied.
#[derive(Drop)]
pub enum Uncopied {
    /// It can't be read.
    NotRead(Reason),
    /// The copy can't be written.
    NotWritten(Unwritten),
}
