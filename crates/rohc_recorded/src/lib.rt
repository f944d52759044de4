//! An outside whose acts are known: it records what another one was asked, and what it answered.
#![tactic(auto)]

mod event;
mod recorded;

pub use event::Event;
pub use recorded::Recorded;
