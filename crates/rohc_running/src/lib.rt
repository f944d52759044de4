//! Saves while a gateway runs. Each goes by pieces into a new file, which replaces that of the save before once it is whole.
#![tactic(auto)]

pub mod running;

pub use running::{Begin, Progress, RunningSave};
