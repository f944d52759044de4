//! Datagrams that wait to be sent. A clause sees an outbox as the list of its datagrams, the first one first.

use circular_buffer::HeapCircularBuffer;
use std::alloc::{AllocError, Global};
use std::marker::Model;

/// The maximum number of datagrams that wait.
pub const MOST: usize = 4096;

/// The maximum number of octets that wait, in all datagrams together.
pub const ROOM: usize = 65_536;

/// The number of UDP ports.
const PORTS: usize = 65_536;

/// A datagram that waits, without its octets.
#[derive(Clone, Copy, PartialEq, Eq, Debug)]
pub struct Waiting {
    /// The port that it is sent from.
    pub from: u16,
    /// The port that it goes to.
    pub to: u16,
    /// How many octets it has.
    pub length: usize,
}

/// Datagrams that wait to be sent.
#[derive(Drop)]
pub struct Outbox {
    heads: HeapCircularBuffer<Waiting>,
    /// The octets of all datagrams, one datagram after the other.
    octets: HeapCircularBuffer<u8>,
    /// How many datagrams go to each port.
    counts: Vec<u16>,
}

impl Model for Outbox {
    ghost use Rattle.std.specs.Prelude.{List};
    ghost use Rattle.rohc_outbox.specs.Outbox.{Datagram, datagrams, IsOutbox};

    ghost Value = { List Datagram };

    ghost view = { λ outbox. datagrams outbox.heads.items outbox.octets.items };

    ghost invariant = { λ outbox. IsOutbox outbox.heads outbox.octets outbox.counts.items };
}

impl Outbox {
    ghost use Rattle.std.specs.Prelude.{◌≡◌, ◌+◌, ◌<◌, ◌≤◌, ◌↔◌, [], ◌∷◌, ◌++◌, None, length, take, drop, Any, IsTrue, IfOk, IfNone, IfSome};
    ghost use Rattle.std.specs.Bool.{OnTrue, OnFalse};
    ghost use Rattle.rohc_outbox.specs.Outbox.{datagram, octets_of};

    /// An empty outbox. It allocates all of its memory here. The error is lack of memory.
    pub fn new(alloc: Global) -> Result<Outbox, AllocError>
        ensures { IfOk result (λ outbox. outbox ≡ []) }
    {
        Ok(Outbox {
            heads: HeapCircularBuffer::with_capacity(alloc, MOST)?,
            octets: HeapCircularBuffer::with_capacity(alloc, ROOM)?,
            counts: vec![in alloc; 0u16; PORTS]?,
        })
    }

    /// Whether nothing waits.
    pub fn is_empty(&self) -> bool
        ensures { IsTrue result ↔ (self.now ≡ []) }
    {
        self.heads.len() == 0
    }

    /// Whether a datagram to this port waits.
    pub fn waits_for(&self, port: u16) -> bool
        ensures { IsTrue result ↔ Any (λ waiting. waiting.to ≡ port) self.now }
    {
        self.counts[usize::from(port)] > 0
    }

    /// Adds a datagram after all others. Returns whether there was room for it; if not, nothing changes.
    pub fn add(&mut self, from: u16, to: u16, octets: &[u8]) -> bool
        ensures room { IsTrue result ↔ ((length self.old < MOST) × (octets_of self.old + length octets.now ≤ ROOM)) }
        ensures added { OnTrue result (self.new ≡ self.old ++ datagram from to octets.now ∷ []) }
        ensures full { OnFalse result (self.new ≡ self.old) }
    {
        if self.heads.len() >= MOST || octets.len() > ROOM - self.octets.len() {
            return false;
        }
        self.heads.push_back(Waiting {
            from,
            to,
            length: octets.len(),
        });
        self.octets.fill_from_slice(octets);
        self.counts[usize::from(to)] += 1;
        true
    }

    /// Removes the first datagram, and writes its octets to the front of the buffer. `None` if nothing waits.
    pub fn take(&mut self, buffer: &mut [u8]) -> Option<Waiting>
        requires { ROOM ≤ length buffer.old }
        ensures none { (result ≡ None) ↔ (self.old ≡ []) }
        ensures unchanged { IfNone result ((self.new ≡ self.old) × (buffer.new ≡ buffer.old)) }
        ensures first { IfSome result (λ head. self.old ≡ datagram head.from head.to (take head.length buffer.new) ∷ self.new) }
        ensures within { IfSome result (λ head. head.length ≤ ROOM) }
        ensures rest { IfSome result (λ head. drop head.length buffer.new ≡ drop head.length buffer.old) }
    {
        let head = self.heads.pop_front()?;
        self.octets.read_into(&mut buffer[..head.length]);
        self.counts[usize::from(head.to)] -= 1;
        Some(head)
    }
}
