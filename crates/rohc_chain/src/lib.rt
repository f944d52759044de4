//! IR and IR-DYN packets, with their static and dynamic chains (RFC 3095 5.7.7 and 5.10). No function
//! allocates memory; payloads are borrowed from the packet. The readers of the chains are inlined, so that the fields of an
//! IR stay in registers.
#![tactic(auto)]

mod cover;
mod dynamic_chain;
mod ir;
mod ir_dyn;
pub mod laws;
mod octets;
mod packet;
mod parts;
mod refusal;
mod static_chain;

pub use ir::read_ir;
pub use ir_dyn::read_ir_dyn;
pub use packet::{Ir, IrDyn};
pub use refusal::ChainRefusal;
