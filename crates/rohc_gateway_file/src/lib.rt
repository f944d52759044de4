//! The command line of a gateway, its file, its log, and how it ends.
#![tactic(auto)]

pub mod build;
pub mod civil;
pub mod command;
pub mod config;
pub mod ending;
pub mod group;
mod key_lines;
pub mod line;
pub mod link_tables;
pub mod log;

pub use build::Build;
pub use civil::{Civil, civil_at};
pub use command::{Options, Request, VERSION, read_request};
pub use config::{Config, ConfigFault, Place, Reading, Unread, Wrong, read_config, write_place};
pub use ending::Ending;
pub use group::Group;
pub use line::shortened;
pub use link_tables::LinkNote;
pub use log::{Level, Log, LogFormat, LostLines};
