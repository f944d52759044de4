//! What is sent later: datagrams of which one that came has too many to send at once.

ghost use Rattle.std.specs.Prelude.{◌≡◌, vec_len};

use crate::gateway::Gateway;
use crate::sockets::Sockets;
use rohc_outbox::{Outbox, ROOM, Waiting};
use std::alloc::{AllocError, Global};

/// The most datagrams that are sent late in a wake.
const MOST_LATE: u32 = 64;

/// What is sent later.
#[derive(Drop)]
pub(crate) struct Late {
    pub(crate) outbox: Outbox,
    /// A buffer for a datagram.
    buffer: Vec<u8>,
    ghost whole: { vec_len buffer ≡ 65536 },
}

impl Late {
    /// Nothing. The error is lack of memory.
    pub(crate) fn new(alloc: Global) -> Result<Late, AllocError> {
        Ok(Late {
            outbox: Outbox::new(alloc)?,
            buffer: vec![in alloc; 0u8; ROOM]?,
        })
    }

    /// Takes out the next datagram that waits; its octets are at the front of the buffer.
    fn next(&mut self) -> Option<Waiting> {
        let (outbox, buffer) = (&mut self.outbox, &mut self.buffer);
        outbox.take(buffer.as_mut_slice())
    }

    /// Takes out the next datagram that waits, and sends it from the port at which the one came that it belongs to, or from another
    /// one if that is closed. Returns whether it went out; `None` if nothing waits.
    fn send_next(&mut self, sockets: &Sockets) -> Option<bool> {
        let head = self.next()?;
        let octets = self.buffer.get(..head.length)?;
        match sockets.at(head.from) {
            Some(bound) => Some(bound.send(head.to, octets)),
            None => Some(false),
        }
    }
}

impl Gateway<'_> {
    /// Whether something waits to be sent.
    pub(crate) fn is_late(&self) -> bool {
        !self.late.outbox.is_empty()
    }

    /// Sends the next 64 datagrams that wait, or all if there are fewer.
    pub(crate) fn send_late(&mut self, sockets: &Sockets) {
        for _ in 0..MOST_LATE {
            match self.late.send_next(sockets) {
                Some(true) => {}
                Some(false) => {
                    let failed = self.figures.failed_late_sends;
                    self.figures.failed_late_sends = failed.saturating_add(1);
                }
                None => return,
            }
        }
    }
}
