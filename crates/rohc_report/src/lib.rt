//! The report of a run as a page of HTML with no outside parts: totals, the time lines of the worst calls, and all calls.
//!
//! Memory grows with the calls, and with the packets that are told of the drawn ones, of which there is a greatest number.
#![tactic(auto)]

mod axis;
mod became;
mod call;
mod calls;
mod drawn;
mod escape;
mod lanes;
pub mod laws;
mod moment;
mod page;
mod picture;
mod section;
mod style;
mod table;
mod worst;

pub use axis::{Axis, CELLS};
pub use became::{Became, is_behind};
pub use call::CallTotals;
pub use calls::{Calls, key_of};
pub use drawn::Drawn;
pub use escape::{escaped, write_escaped};
pub use page::{Report, write_page, write_tile};
pub use style::{POLICY, STYLE};
pub use table::write_number;
pub use worst::{CallRow, worst_first};
