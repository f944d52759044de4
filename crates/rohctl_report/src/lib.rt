//! The subcommand `report` of `rohctl`: a script or a capture, as a page that shows what became of each call.
#![tactic(auto)]

mod asked;
mod passes;
mod report;
mod seen;

pub use asked::Asked;
pub use report::run_report;
