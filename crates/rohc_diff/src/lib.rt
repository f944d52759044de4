//! Two answers of one script, or two traces, compared call by call.
#![tactic(auto)]

mod call;
mod calls;
mod half;
mod reading;

pub use call::{Difference, Seen, Side};
pub use calls::{CallDifference, Calls, Differences};
pub use reading::{DiffFault, diff};
