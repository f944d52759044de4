//! The contexts of all links. A packet is split into its parts, its CID names one context, and only that
//! context takes one step.
#![tactic(auto)]

pub mod ahead;
pub mod answer;
pub mod arrival;
pub mod concentrator;
pub mod forgetting;
pub mod laws;
mod link;
pub mod links;
mod place;
pub mod putting;
pub mod records;
pub mod setting;
pub mod setup;
pub mod sink;
mod standing;
mod trimming;

pub use answer::{Answer, NoLink};
pub use concentrator::Concentrator;
pub use links::{AddFault, ChangeFault};
pub use putting::PutFault;
pub use records::LinkRecords;
pub use setting::{CidRange, LinkSetting};
pub use setup::SetupFault;
pub use sink::Sink;
