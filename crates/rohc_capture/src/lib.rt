//! Captures: files of pcap and pcapng, read and written, and what their frames carry.
//!
//! A capture is read from any reader, as it comes. A frame is followed down to a ROHC packet, or to a UDP datagram over
//! IPv4, and rules say which link it belongs to.
#![tactic(auto)]

mod annotated;
mod batch;
mod block;
mod buffer;
mod carried;
mod choice;
mod fault;
mod frame;
mod framing;
mod number;
mod octets;
mod pcap;
mod reader;
mod ticks;
mod udp;
mod window;
mod writer;

pub use annotated::{write_commented, write_interface, write_section};
pub use batch::Batch;
pub use carried::{Carried, Carrier, carried_in};
pub use choice::{Rule, choose, packet_at_once, packet_in};
pub use fault::{CaptureFault, FRAME_FAULTS, FaultKind, FrameFault};
pub use frame::{Network, Protocol, network_in};
pub use framing::{Framing, USUAL, network_under};
pub use reader::{Capture, Coming, Record};
pub use udp::{Datagram, datagram_in};
pub use writer::{Format, WriteFault, put_record, write_head, write_record};
