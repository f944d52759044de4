//! The room that an answer may need.

ghost use Rattle.std.specs.Prelude.{◌↔◌, IsTrue};
ghost use Rattle.rohc_c.specs.Calls.{HasRoom};

/// The longest head of a packet, in octets.
pub(crate) const HEAD: usize = 40;

/// The longest feedback element, in octets.
pub(crate) const FEEDBACK: usize = 8;

/// Whether the buffers have room for any answer to a packet of these octets.
pub(crate) fn has_room(octets: &[u8], packet: &[u8], feedback: &[u8], relayed: &[u8]) -> bool
    ensures { IsTrue result ↔ HasRoom octets.now
        (record { packet = packet.now; feedback = feedback.now; relayed = relayed.now }) }
{
    packet.len() >= octets.len() + HEAD
        && feedback.len() >= FEEDBACK
        && relayed.len() >= octets.len()
}
