//! The trace of a script: its lines with their numbers, each with its answers behind it.
#![tactic(auto)]

mod fault;
mod head;
mod source;
mod tracer;

pub use fault::TraceFault;
pub use tracer::trace;
