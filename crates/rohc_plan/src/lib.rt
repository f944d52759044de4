//! What the windows of a context mean: how many packets pass until k of the last n outcomes are failures.
#![tactic(auto)]

mod chain;
pub mod laws;
mod outcomes;
mod split;

pub use chain::Chain;
pub use outcomes::{Outcomes, Window};
pub use split::least_share;
