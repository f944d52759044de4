//! One context: the answer to an arrival, and the record after it (RFC 3095 5.3).
//!
//! No function allocates memory; payloads are borrowed from the arrival.
#![tactic(auto)]

pub mod context_fault;
mod due;
pub mod excess;
mod explain;
mod failures;
mod fallen;
mod fault;
mod first_try;
mod full;
mod ir;
mod ir_dyn;
pub mod laws;
mod next;
mod other;
pub mod record;
mod reference;
pub mod refusal;
pub mod reply;
mod restoring;
mod saving;
pub mod settings;
pub mod shown;
pub mod standing;
mod state;
mod step;
mod tries;
pub mod view;
pub mod window;

pub use context_fault::ContextFault;
pub use excess::first_excess;
pub use record::Context;
pub use refusal::Refusal;
pub use reply::{Delivered, Outcome, Reply};
pub use settings::{Mode, Settings};
pub use shown::{Against, Meant, NotMade, Tries, Try, Untried};
pub use standing::{ContextState, Profile};
pub use view::{ReferenceView, StateView, View};
pub use window::Window;
