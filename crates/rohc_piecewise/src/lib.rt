//! A concentrator that is saved piece by piece, while it runs on (docs/FORMATS.md).
//!
//! Each call's record is its record at some moment between the begin and the end of the save. The octets have the form
//! that `rohc_saved` restores.
#![tactic(auto)]

pub mod laws;
mod noted;
mod ready;
pub mod saver;
mod saving;

pub use ready::MOST_CIDS;
pub use saver::Saver;
pub use saving::MOST_OCTETS;

#[cfg(test)]
mod tests;
