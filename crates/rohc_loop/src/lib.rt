//! The files and the clocks of a gateway, over any outside: files that are read whole, a state file that is replaced so
//! that the old one or the new one is always there whole, and moments that pass as time does.
#![tactic(auto)]

mod laws;
mod moments;
mod paths;
mod reading;
mod saving;
mod unwritten;

pub use laws::{goes_on, passes_as_uptime, saves_whole};
pub use moments::{Before, Moments, Reading, Step, first_moment, is_stale, step_between};
pub use paths::{folder_of, path_beside};
pub use reading::{LONGEST_STATE, LONGEST_TEXT, read_state, read_text};
pub use saving::replace_file;
pub use unwritten::Unwritten;
