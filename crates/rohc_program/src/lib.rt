//! The program `rohcd`, from the words of its command line to how it ends.
//!
//! It stands apart from `main`, so that tests can call it.
#![tactic(auto)]

pub mod buffered;
mod command;
mod links_file;
pub mod program;
pub mod udp;

pub use buffered::replay_buffered;
pub use program::run;
pub use udp::UdpFront;
