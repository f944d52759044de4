//! The arrivals of a script as datagrams or Ethernet frames of a capture.

use rohc_capture::{Format, write_record};
use rohctl_ground::{Line, Reason, Stop, Taker};
use std::io::Write;

/// The octets of an IPv4 and a UDP header, and of a link's number.
const BEFORE: u16 = 30;

/// The last second since 1970 that a capture of pcap can hold.
const LAST_SECOND: u64 = 4_294_967_295;

/// What stands before each packet in a capture that is written.
#[derive(Clone, Copy, PartialEq, Eq)]
pub(crate) enum Before {
    /// The headers of a datagram to this port, and the link's number.
    Port(u16),
    /// An Ethernet header with this EtherType. Its source address ends with the link's number.
    Ethernet(u16),
}

impl Before {
    /// The link type of the capture: raw IP packets, or Ethernet.
    pub(crate) fn link_type(self) -> u16 {
        match self {
            Before::Port(_) => 101,
            Before::Ethernet(_) => 1,
        }
    }
}

/// Who writes arrivals to a capture.
#[derive(Drop)]
pub(crate) struct Datagrams<W: Write + Drop> {
    pub(crate) out: W,
    pub(crate) format: Format,
    pub(crate) before: Before,
    /// The lines without a datagram: no arrivals, or what a capture can't hold.
    pub(crate) left_out: u64,
    /// Whether there is a datagram.
    pub(crate) written: bool,
    /// The lines that are arrivals.
    pub(crate) arrivals: u64,
    /// The lines that are resets.
    pub(crate) resets: u64,
}

/// The header sum of an IPv4 header whose own sum is 0.
fn sum_of(head: &[u8; 20]) -> u16 {
    let mut sum = 0u32;
    for pair in head.chunks(2) {
        if let [high, low] = pair {
            sum = sum.saturating_add(u32::from(*high) * 256 + u32::from(*low));
        }
    }
    let folded = sum % 65_536 + sum / 65_536;
    let folded = folded % 65_536 + folded / 65_536;
    !((folded % 65_536) as u16)
}

/// The IPv4 and the UDP header of a datagram from 127.0.0.1 to a port there, and the link's number; `None` if it would be
/// too long.
fn front_of(port: u16, link: u16, size: usize) -> Option<[u8; 30]> {
    let total = u16::try_from(size).ok()?.checked_add(BEFORE)?;
    let [total_high, total_low] = total.to_be_bytes();
    let [udp_high, udp_low] = (total - 20).to_be_bytes();
    let [port_high, port_low] = port.to_be_bytes();
    let [link_high, link_low] = link.to_be_bytes();
    let mut head = [0u8; 20];
    head.copy_from_slice(&[
        0x45, 0, total_high, total_low, 0, 0, 0x40, 0, 64, 17, 0, 0, 127, 0, 0, 1, 127, 0, 0, 1,
    ]);
    let [sum_high, sum_low] = sum_of(&head).to_be_bytes();
    head[10] = sum_high;
    head[11] = sum_low;
    let mut front = [0u8; 30];
    front[..20].copy_from_slice(&head);
    front[20..].copy_from_slice(&[
        port_high, port_low, port_high, port_low, udp_high, udp_low, 0, 0, link_high, link_low,
    ]);
    Some(front)
}

/// The header of an Ethernet frame of a link: from 02:00:00:00 and the link's number to 02:00:00:00:00:00, as that of feedback.
fn ethernet_head(ether_type: u16, link: u16) -> [u8; 14] {
    let [type_high, type_low] = ether_type.to_be_bytes();
    let [link_high, link_low] = link.to_be_bytes();
    [
        2, 0, 0, 0, 0, 0, 2, 0, 0, 0, link_high, link_low, type_high, type_low,
    ]
}

/// The nanosecond of a moment, if a capture of this form can hold it.
fn nanos_of(format: Format, moment: u64) -> Option<u64> {
    let nanos = moment.checked_mul(1_000_000)?;
    match format {
        Format::Pcap if nanos / 1_000_000_000 > LAST_SECOND => None,
        _ => Some(nanos),
    }
}

impl<W: Write + Drop> Datagrams<W> {
    /// Writes an arrival behind these octets.
    fn write(&mut self, nanos: u64, front: &[u8], packet: &[u8]) -> Result<bool, Stop> {
        match write_record(&mut self.out, self.format, nanos, front, packet) {
            Ok(()) => Ok(true),
            Err(_) => Err(Stop::Write(Reason::Other(0))),
        }
    }

    /// Writes an arrival. Returns whether there is a record for it.
    fn arrived(&mut self, link: u16, moment: u64, packet: &[u8]) -> Result<bool, Stop> {
        let Some(nanos) = nanos_of(self.format, moment) else {
            return Ok(false);
        };
        match self.before {
            Before::Ethernet(ether_type) => {
                let front = ethernet_head(ether_type, link);
                self.write(nanos, front.as_slice(), packet)
            }
            Before::Port(port) => match front_of(port, link, packet.len()) {
                Some(front) => self.write(nanos, front.as_slice(), packet),
                None => Ok(false),
            },
        }
    }
}

impl<W: Write + Drop> Taker for Datagrams<W> {
    /// Writes an arrival. Any other line has no datagram.
    fn take(&mut self, _number: u64, line: Line<'_>) -> Result<(), Stop> {
        let written = match line {
            Line::Arrive {
                link,
                moment,
                packet,
            } => {
                self.arrivals = self.arrivals.saturating_add(1);
                self.arrived(link, moment, packet)?
            }
            Line::Reset { .. } => {
                self.resets = self.resets.saturating_add(1);
                false
            }
            Line::Bad => false,
        };
        if written {
            self.written = true;
        } else {
            self.left_out = self.left_out.saturating_add(1);
        }
        Ok(())
    }
}
