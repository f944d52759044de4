//! Rebuilt RTP/UDP/IPv4 headers and their checks (RFC 3095 5.9; RFC 791, 768, 3550). No function
//! allocates memory.
#![tactic(auto)]

mod fields;
mod header;
pub mod laws;
mod parts;
mod polynomial;
mod prepared;

pub use fields::{Dynamic, Static};
pub use header::{Header, LONGEST_PAYLOAD, check3_after, check7_after, head_of};
pub use prepared::Prepared;
