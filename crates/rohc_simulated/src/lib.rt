//! A simulated outside: a disk whose power can fail, calls that fail, and a clock, all from a seed.
#![tactic(auto)]

mod disk;
mod random;
mod simulated;

pub use disk::SimulatedDisk;
pub use random::Random;
pub use simulated::{Chances, Simulated};
