//! Feedback for the compressor, written and read (RFC 3095 5.7.6, RFC 5795 5.2.4.1).
//!
//! No function allocates memory.
#![tactic(auto)]

mod element;
pub mod laws;
mod meaning;
mod reader;

pub use element::{Element, ack, nack, plain_ack, static_nack};
pub use meaning::{Reading, Word};
pub use reader::read;
