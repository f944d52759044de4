//! A socket of the gateway, as its service sees it.

use crate::clocks::RealClocks;
use mio::net::UdpSocket;
use rohc_loop::Moments;
use rohc_outbox::Outbox;
use rohc_serve::Front;
use rohc_station::Queue;
use std::io::ErrorKind;
use std::net::{Ipv4Addr, SocketAddr};
use std::time::Clock;

/// How many datagrams are sent to one port at once for a datagram that came. Further ones wait, so that one datagram with
/// thousands of piggybacked elements holds up no link.
const AT_ONCE: u32 = 4;

/// A socket and its port.
#[derive(Clone, Copy)]
pub(crate) struct Bound<'a> {
    pub(crate) port: u16,
    pub(crate) socket: &'a UdpSocket,
}

impl Bound<'_> {
    /// Sends a datagram to a port of 127.0.0.1. Returns whether it went out.
    pub(crate) fn send(self, port: u16, octets: &[u8]) -> bool {
        let address = SocketAddr::from((Ipv4Addr::LOCALHOST, port));
        match self.socket.send_to(octets, address) {
            Ok(sent) => sent == octets.len(),
            Err(_) => false,
        }
    }
}

/// A socket at a port of 127.0.0.1, if there is one, with the clocks. What is sent goes to ports of 127.0.0.1, at once or
/// through the outbox. The order of what goes to one port stays.
#[derive(Drop)]
pub(crate) struct SocketFront<'a, R> {
    clocks: RealClocks<'a, R>,
    bound: Option<Bound<'a>>,
    moments: &'a mut Moments,
    outbox: &'a mut Outbox,
    /// How many datagrams are sent to one port at once.
    at_once: u32,
    /// The port that was sent to last, and how often in a row, for the datagram that came last.
    to: u16,
    count: u32,
    /// Whether the last receive failed since no datagram waits.
    is_empty: bool,
    /// How many receives failed for another reason.
    pub(crate) failed: u64,
}

impl<'a, R: Clock> SocketFront<'a, R> {
    /// This socket, with the moments of the gateway and what waits to be sent.
    pub(crate) fn new(
        clocks: RealClocks<'a, R>,
        bound: Option<Bound<'a>>,
        moments: &'a mut Moments,
        outbox: &'a mut Outbox,
    ) -> Self {
        SocketFront {
            clocks,
            bound,
            moments,
            outbox,
            at_once: AT_ONCE,
            to: 0,
            count: 0,
            is_empty: false,
            failed: 0,
        }
    }

    /// Sends all at once from now on: for datagrams that were received before.
    pub(crate) fn lift_limit(&mut self) {
        self.at_once = u32::MAX;
    }
}

impl<R: Clock> Front for SocketFront<'_, R> {
    fn receive(&mut self, buffer: &mut [u8]) -> Option<(usize, u64)> {
        let moment = self.moments.now(&mut self.clocks);
        self.count = 0;
        match self.bound?.socket.recv_from(buffer) {
            Ok((size, _)) => Some((size, moment)),
            Err(e) => {
                self.is_empty = e.kind() == ErrorKind::WouldBlock;
                self.failed = self.failed.saturating_add(u64::from(!self.is_empty));
                None
            }
        }
    }

    fn send(&mut self, port: u16, octets: &[u8]) -> bool {
        let Some(bound) = self.bound else {
            return false;
        };
        if port != self.to {
            self.to = port;
            self.count = 0;
        }
        self.count = self.count.saturating_add(1);
        if self.count > self.at_once || self.outbox.waits_for(port) {
            return self.outbox.add(bound.port, port, octets);
        }
        bound.send(port, octets)
    }
}

impl<R: Clock> Queue for SocketFront<'_, R> {
    fn is_empty(&self) -> bool {
        self.is_empty
    }
}
