//! The packets of a script, read before the clock starts.

use crate::input::{bad_text, read_text};
use std::alloc::Global;
use std::io;
use std::rt::Files;

/// A packet of the script. Its octets stand in one buffer with those of the others.
#[derive(Clone, Copy)]
struct Packet {
    link: u16,
    moment: u64,
    start: usize,
    end: usize,
}

/// A packet with its octets.
#[derive(Clone, Copy)]
pub(crate) struct Arrival<'a> {
    pub(crate) link: u16,
    pub(crate) moment: u64,
    pub(crate) octets: &'a [u8],
}

/// The packets of a script.
#[derive(Drop)]
pub(crate) struct Script {
    packets: Vec<Packet>,
    octets: Vec<u8>,
}

/// The value of a hexadecimal digit.
fn digit(character: u8) -> Option<u8> {
    match character {
        b'0'..=b'9' => Some(character - b'0'),
        b'a'..=b'f' => Some(character - b'a' + 10),
        _ => None,
    }
}

impl Script {
    /// The packets of the script in a file.
    pub(crate) fn read<R: Files + AllocGlobal>(rt: &R, path: &str) -> io::Result<Self> {
        let mut script = Script {
            packets: Vec::new(rt.alloc()),
            octets: Vec::new(rt.alloc()),
        };
        for line in read_text(rt, path)?.lines() {
            script.push_line(line)?;
        }
        Ok(script)
    }

    /// Appends the octets that these digits encode.
    fn push_octets(&mut self, digits: &[u8]) -> io::Result<()> {
        for pair in digits.chunks_exact(2) {
            let [high, low] = pair else {
                return Err(bad_text());
            };
            let (Some(high), Some(low)) = (digit(*high), digit(*low)) else {
                return Err(bad_text());
            };
            self.octets.push((high << 4) | low)?;
        }
        Ok(())
    }

    /// Appends the packet of a line.
    fn push_line(&mut self, line: &str) -> io::Result<()> {
        let mut words = line.split(' ');
        let (Some("arrive"), Some(link), Some(moment), Some(digits)) = (
            words.next(),
            words.next(),
            words.next(),
            words.next(),
        ) else {
            return Err(bad_text());
        };
        let start = self.octets.len();
        self.push_octets(digits.as_bytes())?;
        let packet = Packet {
            link: link.parse().map_err(|_| bad_text())?,
            moment: moment.parse().map_err(|_| bad_text())?,
            start,
            end: self.octets.len(),
        };
        self.packets.push(packet)?;
        Ok(())
    }

    /// The packets with their octets.
    pub(crate) fn arrivals(&self, alloc: Global) -> io::Result<Vec<Arrival<'_>>> {
        let mut arrivals = Vec::new(alloc);
        for packet in self.packets.iter() {
            let octets = self.octets.get(packet.start..packet.end);
            arrivals.push(Arrival {
                link: packet.link,
                moment: packet.moment,
                octets: octets.unwrap_or(b""),
            })?;
        }
        Ok(arrivals)
    }
}
