//! A server's front in memory.

use rohc_serve::Front;
use std::alloc::Global;
use std::io::{self, Write};

/// A front that receives the datagrams of a text, and keeps those that are sent, as lines `PORT OCTETS`.
#[derive(Drop)]
pub(crate) struct Memory<'a> {
    alloc: Global,
    datagrams: &'a str,
    failing: u16,
    sent: Vec<u8>,
}

impl<'a> Memory<'a> {
    /// A front that receives these datagrams, one for each word. A word that is no octets is a receive that fails.
    /// The sends to one port fail.
    pub(crate) fn new(alloc: Global, datagrams: &'a str, failing: u16) -> Self {
        Memory {
            alloc,
            datagrams,
            failing,
            sent: Vec::new(alloc),
        }
    }

    /// What was sent.
    pub(crate) fn sent(&self) -> &[u8] {
        self.sent.as_slice()
    }
}

impl Front for Memory<'_> {
    fn receive(&mut self, buffer: &mut [u8]) -> Option<(usize, u64)> {
        let (digits, rest) = self
            .datagrams
            .split_once(' ')
            .unwrap_or((self.datagrams, ""));
        self.datagrams = rest;
        let size = digits.len() / 2;
        let datagram = buffer.get_mut(..size)?;
        hex::decode_to_slice(digits, datagram).ok()?;
        Some((size, 0))
    }

    fn send(&mut self, port: u16, octets: &[u8]) -> bool {
        port != self.failing && write_datagram(self.alloc, port, octets, &mut self.sent).is_ok()
    }
}

/// Writes a datagram that is sent to a port.
pub(crate) fn write_datagram(
    alloc: Global,
    port: u16,
    octets: &[u8],
    text: &mut Vec<u8>,
) -> io::Result<()> {
    let digits = hex::encode(alloc, octets)?;
    writeln!(text, "{port} {digits}")
}
