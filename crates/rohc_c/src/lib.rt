//! The concentrator as a library for C.
//!
//! The contract of an exported function says which call of the concentrator it makes, and what it writes. include/polorowan.h
//! declares the functions, and says what the caller must guarantee. tools/library_calls.c tests each of them from C.
#![tactic(auto)]

pub mod arrival;
mod caller;
pub mod changing;
pub mod counting;
pub mod exports;
pub mod gateway;
pub mod handle;
pub mod laws;
mod lending;
pub mod link;
mod loose;
pub mod many;
mod names;
mod payload;
mod relay;
mod room;
pub mod running;
pub mod saved;
pub mod setup;
pub mod standing;
mod taking;
mod taking_many;
