//! Framing: padding, feedback elements, CIDs and the header of a packet (RFC 3095 5.2, RFC 5795 5).
#![tactic(auto)]

mod cutting;
mod elements;
mod header;
mod items;
pub mod laws;
mod refusal;

pub use cutting::{cut, plain_header};
pub use elements::{Elements, Framed};
pub use header::{CidKind, Forward, HeadKind};
pub use refusal::FrameRefusal;
