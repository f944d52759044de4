//! The links file, a TOML text with the settings and the ports of each link; and what scripts and datagrams share.
#![tactic(auto)]

pub mod buffer;
mod entry;
pub mod fault;
pub mod fields;
mod file;
pub mod laws;
pub mod lists;
pub mod ports;
mod ranges;
mod unfit;
pub mod version;

pub use buffer::zeros;
pub use entry::{keys, numbered_entry};
pub use fault::{Key, LinksFault};
pub use fields::{Field, field_at};
pub use file::{entries, read_links};
pub use lists::Links;
pub use ports::Ports;
pub use unfit::{names_beside, unfit_keys, unknown_names};
pub use version::Version;

/// The longest packet of a script or to a port, in octets.
pub const LONGEST_PACKET: usize = 65_535;
