//! The subcommands of `rohctl` that read answer lines: `totals`, `trace` and `diff`.
#![tactic(auto)]

mod differences;
mod follow;
mod json;
mod metrics;
mod table;
mod totals;
mod tracing;

pub use differences::{Compared, run_diff};
pub use follow::clear;
pub use totals::{Asked, Form, run_totals};
pub use tracing::run_trace;
