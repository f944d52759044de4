//! Who sent a frame.

ghost use Rattle.std.specs.Prelude.{◌≤◌};

use rohc_capture::{Protocol, network_in};

/// The address of a sender.
#[derive(Clone, Copy, PartialEq, Eq)]
pub(crate) enum Sender {
    /// An Ethernet address.
    Ethernet([u8; 6]),
    /// An IPv4 address.
    Ipv4([u8; 4]),
}

/// Where the sender's address begins in a frame, by its link type: Ethernet, and Linux cooked 1 and 2.
fn place_of(link_type: u16) -> Option<usize> {
    match link_type {
        1 | 113 => Some(6),
        276 => Some(12),
        _ => None,
    }
}

/// Whether these octets stand at a place.
fn stands_at(octets: &[u8], place: usize, wanted: &[u8]) -> bool {
    match octets.get(place..) {
        Some(rest) => rest.starts_with(wanted),
        None => false,
    }
}

impl Sender {
    /// Whether this is the sender of a frame of this link type.
    pub(crate) fn sent(&self, link_type: u16, frame: &[u8]) -> bool {
        match self {
            Sender::Ethernet(address) => match place_of(link_type) {
                Some(place) => stands_at(frame, place, address.as_slice()),
                None => false,
            },
            Sender::Ipv4(address) => match network_in(link_type, frame) {
                Ok(network) => {
                    network.protocol == Protocol::Ipv4
                        && stands_at(network.octets, 12, address.as_slice())
                }
                Err(_) => false,
            },
        }
    }
}

/// The numbers of a text with a mark between them, each below 256; `None` if it isn't so many.
fn numbers<const N: usize>(text: &str, mark: &str, radix: u32) -> Option<[u8; N]>
    requires { (2 ≤ radix) × (radix ≤ 36) }
{
    let mut all = [0u8; N];
    let mut count = 0usize;
    for part in text.split(mark) {
        let place = all.get_mut(count)?;
        *place = u8::from_str_radix(part, radix).ok()?;
        count = count.saturating_add(1);
    }
    if count == N { Some(all) } else { None }
}

/// The sender that a text names: six hexadecimal numbers with colons, or four decimal ones with dots.
pub(crate) fn sender_of(text: &str) -> Option<Sender> {
    match numbers::<6>(text, ":", 16) {
        Some(address) => Some(Sender::Ethernet(address)),
        None => Some(Sender::Ipv4(numbers::<4>(text, ".", 10)?)),
    }
}
