//! Totals over answer lines: how many lines of each kind there are, by call, by link and of all.
//!
//! A call is a CID of a link. Memory grows with the calls alone.
#![tactic(auto)]

mod call;
mod counts;
mod feedback;
mod field;
mod kind;
pub mod laws;
mod line;
mod reading;
mod rows;
mod totals;

pub use call::CallTotals;
pub use counts::Counts;
pub use kind::{AnswerLine, KINDS, LineKind};
pub use line::read_answer;
pub use reading::{Nobody, TotalsFault, Watcher, read_totals, watch_totals};
pub use rows::{CallRow, call_rows};
pub use totals::{LinkTotals, Totals};
