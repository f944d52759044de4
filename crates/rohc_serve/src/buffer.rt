//! A buffer for what is sent.

ghost use Rattle.std.specs.Prelude.{◌≡◌, vec_len};
ghost use Rattle.rohc_links.specs.Limits.{longest_packet};

use rohc_bits::put_behind;
use rohc_links::{LONGEST_PACKET, zeros};
use std::alloc::{AllocError, Global};

/// Room for a packet of up to 65,535 octets.
#[derive(Drop)]
pub struct PacketBuffer {
    octets: Vec<u8>,
    ghost whole: { vec_len octets ≡ longest_packet },
}

impl PacketBuffer {
    ghost use Rattle.std.specs.Prelude.{◌≡◌, ◌<◌, ◌≤◌, ◌++◌, length, IfSome, IfNone};
    ghost use Rattle.rohc_links.specs.Limits.{longest_packet};

    /// A buffer. The error is lack of memory.
    pub fn new(alloc: Global) -> Result<PacketBuffer, AllocError> {
        Ok(PacketBuffer {
            octets: zeros(alloc, LONGEST_PACKET)?,
        })
    }

    /// Puts a payload behind a head into the buffer and returns both, or `None` if they are too long to be sent.
    pub(crate) fn put(&mut self, head: &[u8], payload: &[u8]) -> Option<&[u8]>
        ensures put { IfSome result (λ both. both.now ≡ head.now ++ payload.now) }
        ensures within { IfSome result (λ both. length both.now ≤ longest_packet) }
        ensures long { IfNone result (longest_packet < length (head.now ++ payload.now)) }
    {
        let size = head.len() + payload.len();
        if size > LONGEST_PACKET {
            return None;
        }
        put_behind(self.octets.as_mut_slice(), 0, head);
        put_behind(self.octets.as_mut_slice(), head.len(), payload);
        Some(&self.octets[..size])
    }
}
