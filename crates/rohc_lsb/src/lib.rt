//! Decoding of header fields from their low bits: interpretation intervals, sequence numbers,
//! timestamps and the IP Identification (RFC 3095 4.5).
#![tactic(auto)]

mod identification;
mod interval;
pub mod laws;
mod sequence;
mod timestamp;

pub use identification::ip_id;
pub use interval::interval_value;
pub use sequence::{sn_shift, sn_value};
pub use timestamp::{inferred_ts, scaled, ts_shift, unscaled};
