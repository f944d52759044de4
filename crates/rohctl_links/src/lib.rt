//! The subcommands of `rohctl` that read links files: `links`, `plan` and `spread`.
#![tactic(auto)]

mod faults;
mod feedback;
mod hosts;
mod new_file;
mod plan;
mod settings;
mod spread;

pub use faults::run_links;
pub use new_file::{run_new, write_found};
pub use plan::{AskedWindow, Plan, run_plan};
pub use spread::{Spread, run_spread};
