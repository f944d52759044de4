//! All faults of a links file, entry by entry, where `read_links` and `Concentrator::new` tell the first alone.
#![tactic(auto)]

mod entry;
mod file;
mod finding;
pub mod laws;
mod limits;
mod places;
mod sentence;

pub use entry::EntryFaults;
pub use file::{FileFaults, all_faults};
pub use finding::{Finding, Wrong, findings, no_toml};
pub use limits::keys_beyond;
pub use sentence::{write_faults, write_sentence};
