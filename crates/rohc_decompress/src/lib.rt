//! From a capture of ROHC packets to a capture of IP packets: each packet arrives on its link at the time at which it was
//! captured, and what the concentrator delivers is written with that time.
#![tactic(auto)]

mod ahead;
mod cut;
mod fault;
mod run;
mod tally;

pub use fault::BulkFault;
pub use run::{Bulk, begin, decompress, put_feedback, shown, take_packet};
pub use tally::Tally;
