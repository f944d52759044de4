//! Room for a datagram.

ghost use Rattle.std.specs.Prelude.{◌≡◌, vec_len};

use rohc_links::zeros;
use std::alloc::{AllocError, Global};

/// The longest datagram, in octets: a link's number, a moment and a packet.
const LONGEST_DATAGRAM: usize = 65_545;

/// Room for a datagram of up to 65,545 octets.
#[derive(Drop)]
pub(crate) struct Room {
    pub(crate) octets: Vec<u8>,
    ghost whole: { vec_len octets ≡ 65545 },
}

impl Room {
    /// Room for a datagram. The error is lack of memory.
    pub(crate) fn new(alloc: Global) -> Result<Room, AllocError> {
        Ok(Room {
            octets: zeros(alloc, LONGEST_DATAGRAM)?,
        })
    }
}
