//! The subcommand `keep`: the newest save of a running gateway is copied to a durable file.
#![tactic(auto)]

mod copying;
mod failure;
mod keep;
mod places;
mod save;

pub use copying::copy_save;
pub use keep::{Gateway, run_keep};
pub use places::{Places, places_in};
pub use save::{Save, Uncopied};
