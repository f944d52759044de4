//! How many answers of each kind a link was given: by outcome, and by the kind of feedback.
#![tactic(auto)]

mod counts;
pub mod laws;
mod word;

pub use counts::{Counts, outcome_number};
