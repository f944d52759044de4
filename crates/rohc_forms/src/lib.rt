//! The content of packets of kind Other: UO-0, UO-1 and UOR-2 with their extensions (RFC 3095 5.7.1 to
//! 5.7.5). No function allocates memory, and the payload is borrowed from the packet.
#![tactic(auto)]

mod base;
mod extension;
mod fields;
mod flag;
mod form;
pub mod laws;
mod octets;
mod packet;
mod parts;
mod place;
mod reading;
mod refusal;

pub use form::{Form, FormKind, IdBits, Values};
pub use reading::{read_form, read_uo_0};
pub use refusal::FormRefusal;
