//! What a person asks about one packet, beside what its context makes of it: its fields in their places, and what usually
//! causes a refusal.
#![tactic(auto)]

mod base;
mod bits;
mod cause;
mod chains;
mod extension;
mod field;
mod front;
mod header;
mod packet;
mod telling;

pub use cause::{Cause, cause_of};
pub use field::{Field, FieldName};
pub use header::{HeaderFields, header_fields};
pub use packet::{PacketFields, PacketKind, Terms, packet_fields};
