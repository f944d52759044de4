//! A concentrator as octets, and back (docs/FORMATS.md).
#![tactic(auto)]

mod context_reading;
pub mod fault;
mod form;
pub mod laws;
pub mod link_restoring;
mod output;
pub mod part;
mod reading;
pub mod restored;
pub mod restoring;
pub mod saving;

pub use fault::{LinkFault, SaveFault, SavedFault};
pub use link_restoring::restore_link;
pub use part::{Part, context_part};
pub use reading::saved_moment;
pub use restored::Restored;
pub use restoring::{is_same, restore, restore_fallen};
pub use saving::{save, save_link, size_octet, start_part};
