//! A socket of a simulated host, and the place of what is wanted to be sent there.

use crate::sender::{Octets, octets_of};
use rohc_serve::Front;
use rohc_simulated::Random;
use rohc_station::Queue;
use std::alloc::{AllocError, Global};
use std::mem;

/// How many datagrams wait at most. More are lost.
const MOST_WAITING: usize = 12;

/// A socket. Datagrams wait there, receives and sends may fail, and what was received and sent is kept.
#[derive(Drop)]
pub(crate) struct Loopback {
    waiting: Vec<Octets>,
    /// How many of these were received.
    received: usize,
    /// What was sent: for each send the port, the number of octets, and the octets.
    sent: Vec<u8>,
    /// How many sends failed since the gateway started.
    pub(crate) failed: u64,
    pub(crate) moment: u64,
    random: Random,
    is_empty: bool,
}

/// Appends a send to what was sent.
fn note_sent(sent: &mut Vec<u8>, port: u16, octets: &[u8]) -> Result<(), AllocError> {
    sent.extend_from_slice(&port.to_be_bytes())?;
    sent.extend_from_slice(&octets.len().to_be_bytes())?;
    sent.extend_from_slice(octets)
}

impl Loopback {
    /// A socket where nothing waits.
    pub(crate) fn new(alloc: Global, seed: u64) -> Loopback {
        Loopback {
            waiting: Vec::new(alloc),
            received: 0,
            sent: Vec::new(alloc),
            failed: 0,
            moment: 0,
            random: Random::new(seed),
            is_empty: true,
        }
    }

    /// Lets a datagram wait, if there is room for it. Otherwise it is lost.
    pub(crate) fn put(&mut self, datagram: Octets) -> Result<(), AllocError> {
        if self.waiting.len() < MOST_WAITING {
            self.waiting.push(datagram)?;
        }
        Ok(())
    }

    /// The datagrams, which were all received. Nothing waits any longer.
    pub(crate) fn taken(&mut self, alloc: Global) -> Vec<Octets> {
        self.received = 0;
        mem::replace(&mut self.waiting, Vec::new(alloc))
    }

    /// Whether exactly this was sent. It is forgotten.
    pub(crate) fn sent_just(&mut self, wanted: &Wanted) -> bool {
        let is_just = wanted.sent.as_slice() == self.sent.as_slice();
        self.sent.clear();
        is_just
    }
}

impl Front for Loopback {
    fn receive(&mut self, buffer: &mut [u8]) -> Option<(usize, u64)> {
        let is_interrupted = self.random.happens(16);
        self.is_empty = !is_interrupted && self.received >= self.waiting.len();
        if is_interrupted {
            return None;
        }
        let datagram = self.waiting.get(self.received)?;
        buffer
            .get_mut(..datagram.len())?
            .copy_from_slice(datagram.as_slice());
        self.received = self.received.saturating_add(1);
        Some((datagram.len(), self.moment))
    }

    fn send(&mut self, port: u16, octets: &[u8]) -> bool {
        let is_noted = note_sent(&mut self.sent, port, octets).is_ok();
        let is_gone = is_noted && !self.random.happens(16);
        self.failed = self.failed.saturating_add(u64::from(!is_gone));
        is_gone
    }
}

impl Queue for Loopback {
    fn is_empty(&self) -> bool {
        self.is_empty
    }
}

/// What is wanted to be sent, and the last packet of it for the port of packets.
#[derive(Drop)]
pub(crate) struct Wanted {
    sent: Vec<u8>,
    pub(crate) delivered: Option<Octets>,
    /// The port of packets.
    port: u16,
}

impl Wanted {
    /// Nothing is wanted.
    pub(crate) fn new(alloc: Global, port: u16) -> Wanted {
        Wanted {
            sent: Vec::new(alloc),
            delivered: None,
            port,
        }
    }
}

impl Front for Wanted {
    fn receive(&mut self, _buffer: &mut [u8]) -> Option<(usize, u64)> {
        None
    }

    fn send(&mut self, port: u16, octets: &[u8]) -> bool {
        if port == self.port {
            self.delivered = Some(octets_of(octets));
        }
        note_sent(&mut self.sent, port, octets).is_ok()
    }
}
