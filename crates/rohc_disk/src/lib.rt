//! The files of the system, as a program's outside.
#![tactic(auto)]

mod disk;
mod time;
mod trouble;

pub use disk::RealDisk;
pub use time::{milliseconds, time_of};
pub use trouble::{answer_of, trouble_of};
