//! A front on UDP: a socket on 127.0.0.1, with a clock.

use rohc_serve::Front;
use std::io;
use std::net::{Ipv4Addr, Net, UdpSocket};
use std::time::{Clock, Instant};

/// A socket on 127.0.0.1. Arrival times are the milliseconds since the clock was started.
#[derive(Drop)]
pub struct UdpFront<'a, R> {
    clock: &'a R,
    socket: UdpSocket,
    start: Instant,
}

impl<'a, R: Net + Clock> UdpFront<'a, R> {
    /// Binds a socket to the port, and starts the clock.
    pub(crate) fn open(rt: &'a R, port: u16) -> io::Result<Self> {
        let socket = UdpSocket::bind(rt, (Ipv4Addr::LOCALHOST, port))?;
        UdpFront::over(rt, socket)
    }

    /// Takes a socket that is bound, and starts the clock.
    pub fn over(rt: &'a R, socket: UdpSocket) -> io::Result<Self> {
        let start = Instant::now(rt)?;
        Ok(UdpFront {
            clock: rt,
            socket,
            start,
        })
    }
}

impl<R: Net + Clock> Front for UdpFront<'_, R> {
    fn receive(&mut self, buffer: &mut [u8]) -> Option<(usize, u64)> {
        let (size, _) = self.socket.recv_from(buffer).ok()?;
        let since_start = self.start.elapsed(self.clock).ok()?;
        let moment = u64::try_from(since_start.as_millis()).ok()?;
        Some((size, moment))
    }

    fn send(&mut self, port: u16, octets: &[u8]) -> bool {
        match self.socket.send_to(octets, (Ipv4Addr::LOCALHOST, port)) {
            Ok(sent) => sent == octets.len(),
            Err(_) => false,
        }
    }
}
