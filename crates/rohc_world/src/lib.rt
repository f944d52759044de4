//! What a program asks of the outside: files, clocks and a log.
#![tactic(auto)]

mod trouble;
mod world;

pub use trouble::Trouble;
pub use world::{Clocks, Disk, Journal, Traced, World};
