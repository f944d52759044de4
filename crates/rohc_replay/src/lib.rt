//! Scripts, which are read line by line and answered in lines.
#![tactic(auto)]

mod counts;
pub mod fault;
mod hex_octets;
pub mod laws;
mod line_text;
mod numeral;
mod output;
pub mod run;
mod stream;
pub mod tally;
mod turn;
mod words;

pub use fault::RunFault;
pub use rohc_links::{Key, LONGEST_PACKET, Links, LinksFault, Ports, read_links};
pub use run::replay;
pub use tally::Tally;
pub use words::{Words, read_words};
