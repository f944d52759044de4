//! The concentrator as a server: a datagram comes in, and what is to be sent for it goes out.
//!
//! The server works on a `Front`. The program provides one on UDP; tests provide one in memory.
#![tactic(auto)]

pub mod buffer;
pub mod datagram;
pub mod front;
pub mod laws;
pub mod sending;
pub mod sends;
pub mod server;
pub mod tally;

pub use buffer::PacketBuffer;
pub use datagram::{answer_datagram, named_link, ports_of};
pub use front::Front;
pub use sending::send_all;
pub use sends::Sends;
pub use server::serve;
pub use tally::ServeTally;
